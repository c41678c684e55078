// The parts of a file, and the records of each.
ghost use Rattle.std.specs.Prelude.{◌≡◌, ◌+◌, ◌*◌, ◌≤◌, length, drop, MatchOption};
ghost use Rattle.std.specs.Iterator.{at_most};
ghost use Rattle.program.specs.Layout.{Covers};
ghost use Rattle.typing.specs.Faults.{variable_part, procedure_part};

use program::fields::{NodeFields, ProcedureFields, Record, VariableFields};
use program::layout::Layout;
use std::marker::PhantomData;

// So many records of a kind, one after another. The count stands beside the bytes, since these go on to the end of the file.
#[derive(Drop)]
pub(crate) struct Records<'a, R: Record> {
    left: &'a [u8],
    count: usize,
    of: PhantomData<R>,
    ghost whole: { R.size * count ≤ length left.now },
}

impl<'a, R: Record> Records<'a, R> {
    fn of(left: &'a [u8], count: usize) -> Records<'a, R>
        requires { R.size * count ≤ length left.now }
        ensures left { result.left.now ≡ left.now }
        ensures count { result.count ≡ count }
    {
        Records {
            left,
            count,
            of: PhantomData,
        }
    }
}

impl<R: Record> Iterator for Records<'_, R> {
    type Item = R;

    ghost next_gives = { λ s r t. MatchOption r (s.count ≡ 0) (λ f. (t.count + 1 ≡ s.count) × (f ≡ R.fields_of s.left.now) × (t.left.now ≡ drop R.size s.left.now)) };

    ghost remaining = { λ s. at_most s.count };

    fn next(&mut self) -> Option<R> {
        if self.count == 0 {
            return None;
        }
        let (fields, rest) = R::split(self.left)?;
        self.left = rest;
        self.count -= 1;
        Some(fields)
    }
}

// A file and its layout, by which all its records lie in it.
#[derive(Clone, Copy)]
pub(crate) struct Parts<'a> {
    pub(crate) file: &'a [u8],
    pub(crate) layout: Layout,
    ghost covers: { Covers (length file.now) layout },
}

impl<'a> Parts<'a> {
    pub(crate) fn nodes(&self) -> Records<'a, NodeFields>
        ensures left { result.left.now ≡ self.now.file.now }
        ensures count { result.count ≡ self.now.layout.nodes }
    {
        Records::of(self.file, self.layout.nodes)
    }

    pub(crate) fn variables(&self) -> Records<'a, VariableFields>
        ensures left { result.left.now ≡ variable_part self.now.layout self.now.file.now }
        ensures count { result.count ≡ self.now.layout.variables }
    {
        Records::of(&self.file[12 * self.layout.nodes..], self.layout.variables)
    }

    pub(crate) fn procedures(&self) -> Records<'a, ProcedureFields>
        ensures left { result.left.now ≡ procedure_part self.now.layout self.now.file.now }
        ensures count { result.count ≡ self.now.layout.procedures }
    {
        Records::of(
            &self.file[12 * self.layout.nodes + 8 * self.layout.variables..],
            self.layout.procedures,
        )
    }
}
