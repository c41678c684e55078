// The split holding: three words, the shares, stand for their sum, and the first two are masks.
ghost use Rattle.std.specs.Prelude.{◌≡◌};
ghost use Rattle.words.specs.Operators.{minus_word, not_word, and_word, or_word, held_arithmetic_word, comparison_word};
ghost use Rattle.holding.specs.Counts.{none_yet};
ghost use Rattle.holding.specs.Splitting.{next_mask, two_draws, shared, after_put, after_op};
ghost use Rattle.holding.specs.Stands.{sum_of};
ghost use Rattle.std.proofs.Common.{rules};

use crate::interface::Holding;
use crate::shares::{Counts, Shares};
use words::operators;
use words::types::{Arithmetic, Comparison, DataType};

// The mask word is the state of the generator that masks are drawn from. It is a linear congruence and no cipher: whoever learns a mask can tell the next.
#[derive(Drop)]
pub struct SplitHolding {
    mask: u32,
    counts: Counts,
}

// An operator on words, share by share.
fn by_share<F: Fn(u32, u32) -> u32>(x: Shares, y: Shares, operator: F) -> Shares
    requires { F.IsAlwaysCallable operator }
    ensures first { F.post operator x.first y.first result.first }
    ensures second { F.post operator x.second y.second result.second }
    ensures third { F.post operator x.third y.third result.third }
{
    Shares {
        first: operator(x.first, y.first),
        second: operator(x.second, y.second),
        third: operator(x.third, y.third),
    }
}

impl SplitHolding {
    // A holding that has counted nothing yet, with the mask word that its masks are drawn from.
    pub fn new(mask: u32) -> SplitHolding
        ensures { result ≡ record { mask = mask; counts = none_yet } }
    {
        SplitHolding {
            mask,
            counts: Counts::none_yet(),
        }
    }

    // Draws a mask, which is the next mask word.
    fn draw(&mut self) -> u32
        ensures drawn { result ≡ next_mask self.old.mask }
        ensures mask { self.new.mask ≡ next_mask self.old.mask }
        ensures counts { self.new.counts ≡ self.old.counts }
    {
        self.mask = self.mask.wrapping_mul(1664525).wrapping_add(1013904223);
        self.mask
    }

    // The same word under two fresh masks. What the first two shares lose goes to the third, so that the word itself is never formed.
    fn mask_afresh(&mut self, x: Shares) -> Shares
        ensures shares { result ≡ shared self.old.mask (sum_of x) }
        ensures mask { self.new.mask ≡ two_draws self.old.mask }
        ensures counts { self.new.counts ≡ self.old.counts }
    {
        let first = self.draw();
        let second = self.draw();
        let third = x
            .third
            .wrapping_add(x.first.wrapping_sub(first))
            .wrapping_add(x.second.wrapping_sub(second));
        Shares {
            first,
            second,
            third,
        }
    }

    // Counts an operator, and holds its result under two fresh masks.
    fn hold_result(&mut self, res: Shares) -> Shares
        ensures shares { result ≡ shared self.old.mask (sum_of res) }
        ensures after { self.new ≡ after_op self.old }
    {
        self.counts = self.counts.one_op();
        self.mask_afresh(res)
    }

    // The same for a result that is a word.
    fn hold_word(&mut self, word: u32) -> Shares
        ensures shares { result ≡ shared self.old.mask word }
        ensures after { self.new ≡ after_op self.old }
    {
        self.hold_result(Shares::alone(word))
    }
}

impl Holding for SplitHolding {
    ghost stands = { sum_of };

    ghost counts = { λ h. h.counts };

    ghost word = { Prim.search rules };

    fn put_in(&mut self, word: u32) -> Shares
        ensures stands { sum_of result ≡ word }
        ensures shares { result ≡ shared self.old.mask word }
        ensures after { self.new ≡ after_put self.old }
    {
        self.counts = self.counts.one_put();
        self.mask_afresh(Shares::alone(word))
    }

    fn minus(&mut self, x: Shares) -> Shares
        ensures stands { sum_of result ≡ minus_word (sum_of x) }
        ensures shares { result ≡ shared self.old.mask (minus_word (sum_of x)) }
        ensures after { self.new ≡ after_op self.old }
    {
        self.hold_result(by_share(Shares::alone(0), x, |a, b| a.wrapping_sub(b)))
    }

    fn not(&mut self, x: Shares) -> Shares
        ensures stands { sum_of result ≡ not_word (sum_of x) }
        ensures shares { result ≡ shared self.old.mask (not_word (sum_of x)) }
        ensures after { self.new ≡ after_op self.old }
    {
        let word = operators::not(self.take_out(x));
        self.hold_word(word)
    }

    // Sums and differences are made share by share. The others are made of the words themselves.
    fn arithmetic(
        &mut self,
        operator: Arithmetic,
        data_type: DataType,
        x: Shares,
        y: Shares,
    ) -> Shares
        ensures stands { sum_of result ≡ held_arithmetic_word operator data_type (sum_of x) (sum_of y) }
        ensures shares { result ≡ shared self.old.mask (held_arithmetic_word operator data_type (sum_of x) (sum_of y)) }
        ensures after { self.new ≡ after_op self.old }
    {
        match operator {
            Arithmetic::Add => self.hold_result(by_share(x, y, |a, b| a.wrapping_add(b))),
            Arithmetic::Subtract => self.hold_result(by_share(x, y, |a, b| a.wrapping_sub(b))),
            Arithmetic::Multiply | Arithmetic::Divide | Arithmetic::Remainder => {
                let word = operator.apply_held(data_type, self.take_out(x), self.take_out(y));
                self.hold_word(word)
            }
        }
    }

    fn compare(&mut self, operator: Comparison, data_type: DataType, x: Shares, y: Shares) -> Shares
        ensures stands { sum_of result ≡ comparison_word operator data_type (sum_of x) (sum_of y) }
        ensures shares { result ≡ shared self.old.mask (comparison_word operator data_type (sum_of x) (sum_of y)) }
        ensures after { self.new ≡ after_op self.old }
    {
        let word = operator.apply(data_type, self.take_out(x), self.take_out(y));
        self.hold_word(word)
    }

    fn and(&mut self, x: Shares, y: Shares) -> Shares
        ensures stands { sum_of result ≡ and_word (sum_of x) (sum_of y) }
        ensures shares { result ≡ shared self.old.mask (and_word (sum_of x) (sum_of y)) }
        ensures after { self.new ≡ after_op self.old }
    {
        let word = operators::and(self.take_out(x), self.take_out(y));
        self.hold_word(word)
    }

    fn or(&mut self, x: Shares, y: Shares) -> Shares
        ensures stands { sum_of result ≡ or_word (sum_of x) (sum_of y) }
        ensures shares { result ≡ shared self.old.mask (or_word (sum_of x) (sum_of y)) }
        ensures after { self.new ≡ after_op self.old }
    {
        let word = operators::or(self.take_out(x), self.take_out(y));
        self.hold_word(word)
    }

    fn take_out(&self, x: Shares) -> u32 {
        x.first.wrapping_add(x.second).wrapping_add(x.third)
    }

    fn tally(&self) -> Counts {
        self.counts
    }
}
