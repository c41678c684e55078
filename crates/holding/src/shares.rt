// A held figure, and the counts of a holding.
ghost use Rattle.std.specs.Prelude.{◌≡◌};
ghost use Rattle.holding.specs.Counts.{none_yet, one_put, one_op};
ghost use Rattle.holding.specs.Stands.{alone};

// Three words that stand for one; which one, the holding says.
#[derive(Clone, Copy)]
pub struct Shares {
    pub first: u32,
    pub second: u32,
    pub third: u32,
}

impl Shares {
    // The word as it is, and two zeros beside it.
    pub(crate) fn alone(word: u32) -> Shares
        ensures { result ≡ alone word }
    {
        Shares {
            first: word,
            second: 0,
            third: 0,
        }
    }
}

// How many words were put in and how many operators done, each modulo 2^32.
#[derive(Clone, Copy, PartialEq, Eq, Debug)]
pub struct Counts {
    pub puts: u32,
    pub ops: u32,
}

impl Counts {
    pub(crate) fn none_yet() -> Counts
        ensures { result ≡ none_yet }
    {
        Counts { puts: 0, ops: 0 }
    }

    pub(crate) fn one_put(self) -> Counts
        ensures { result ≡ one_put self }
    {
        Counts {
            puts: self.puts.wrapping_add(1),
            ..self
        }
    }

    pub(crate) fn one_op(self) -> Counts
        ensures { result ≡ one_op self }
    {
        Counts {
            ops: self.ops.wrapping_add(1),
            ..self
        }
    }
}
