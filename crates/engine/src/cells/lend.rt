// What touches a cell: it is read, or lent to be altered.
ghost use Rattle.std.specs.Prelude.{◌≡◌, ◌<◌, replicate, slice_get, slice_index_or};
ghost use Rattle.std.specs.Borrow.{sem, Lends};
ghost use Rattle.engine.specs.Lending.{with_cell};
ghost use Rattle.engine.specs.contracts.cells.Cells.{the_row as the_cells};
ghost use Rattle.semantics.specs.contracts.values.Value.{the_row as the_value};

use super::{CELLS, Cells};
use semantics::values::Value;

impl<S> Cells<S> {
    // The cell numbered `i`: what is written there is in the table afterwards, and nothing else is altered.
    pub(crate) fn cell(&mut self, i: usize) -> &mut Value<S>
        requires { i < 128 }
        ensures* writes_back { sem 𝓛 (Lends (the_cells S.row) (the_value S.row) self.entry result (with_cell self.old i)) }
        ensures value { result.now ≡ slice_index_or self.old.cells i result.now }
    {
        &mut self.cells[i]
    }
}

impl<S: Copy> Cells<S> {
    pub(crate) fn all(value: Value<S>) -> Cells<S>
        ensures { result.cells ≡ replicate 128 value }
    {
        Cells {
            cells: [value; CELLS],
        }
    }

    pub(crate) fn read(&self, i: usize) -> Option<Value<S>>
        ensures { result ≡ slice_get self.now.cells i }
    {
        self.cells.get(i).copied()
    }
}
