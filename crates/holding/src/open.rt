// The open holding, which hides nothing: three words stand for the first.
ghost use Rattle.std.specs.Prelude.{◌≡◌};
ghost use Rattle.words.specs.Operators.{minus_word, not_word, and_word, or_word, held_arithmetic_word, comparison_word};
ghost use Rattle.holding.specs.Counts.{none_yet, one_put, one_op};
ghost use Rattle.holding.specs.Stands.{first_of, alone};
ghost use Rattle.std.proofs.Common.{rules};

use crate::interface::Holding;
use crate::shares::{Counts, Shares};
use words::operators;
use words::types::{Arithmetic, Comparison, DataType};

// It keeps nothing but its counts.
#[derive(Drop)]
pub struct OpenHolding {
    counts: Counts,
}

impl OpenHolding {
    // A holding that has counted nothing yet.
    pub fn new() -> OpenHolding
        ensures { result.counts ≡ none_yet }
    {
        OpenHolding {
            counts: Counts::none_yet(),
        }
    }

    // Counts an operator, and holds its result.
    fn hold_result(&mut self, word: u32) -> Shares
        ensures shares { result ≡ alone word }
        ensures counts { self.new.counts ≡ one_op self.old.counts }
    {
        self.counts = self.counts.one_op();
        Shares::alone(word)
    }
}

impl Holding for OpenHolding {
    ghost stands = { first_of };

    ghost counts = { λ h. h.counts };

    ghost word = { Prim.search rules };

    fn put_in(&mut self, word: u32) -> Shares
        ensures shares { result ≡ alone word }
        ensures counts { self.new.counts ≡ one_put self.old.counts }
    {
        self.counts = self.counts.one_put();
        Shares::alone(word)
    }

    fn minus(&mut self, x: Shares) -> Shares
        ensures shares { result ≡ alone (minus_word (first_of x)) }
        ensures counts { self.new.counts ≡ one_op self.old.counts }
    {
        self.hold_result(operators::minus(x.first))
    }

    fn not(&mut self, x: Shares) -> Shares
        ensures shares { result ≡ alone (not_word (first_of x)) }
        ensures counts { self.new.counts ≡ one_op self.old.counts }
    {
        self.hold_result(operators::not(x.first))
    }

    fn arithmetic(
        &mut self,
        operator: Arithmetic,
        data_type: DataType,
        x: Shares,
        y: Shares,
    ) -> Shares
        ensures shares { result ≡ alone (held_arithmetic_word operator data_type (first_of x) (first_of y)) }
        ensures counts { self.new.counts ≡ one_op self.old.counts }
    {
        self.hold_result(operator.apply_held(data_type, x.first, y.first))
    }

    fn compare(&mut self, operator: Comparison, data_type: DataType, x: Shares, y: Shares) -> Shares
        ensures shares { result ≡ alone (comparison_word operator data_type (first_of x) (first_of y)) }
        ensures counts { self.new.counts ≡ one_op self.old.counts }
    {
        self.hold_result(operator.apply(data_type, x.first, y.first))
    }

    fn and(&mut self, x: Shares, y: Shares) -> Shares
        ensures shares { result ≡ alone (and_word (first_of x) (first_of y)) }
        ensures counts { self.new.counts ≡ one_op self.old.counts }
    {
        self.hold_result(operators::and(x.first, y.first))
    }

    fn or(&mut self, x: Shares, y: Shares) -> Shares
        ensures shares { result ≡ alone (or_word (first_of x) (first_of y)) }
        ensures counts { self.new.counts ≡ one_op self.old.counts }
    {
        self.hold_result(operators::or(x.first, y.first))
    }

    fn take_out(&self, x: Shares) -> u32 {
        x.first
    }

    fn tally(&self) -> Counts {
        self.counts
    }
}
