// What a holding is to the code above it.
ghost use Rattle.std.specs.Prelude.{◌≡◌, ℕ, ◌^◌, ◌<◌};
ghost use Rattle.words.specs.Operators.{minus_word, not_word, and_word, or_word, held_arithmetic_word, comparison_word};
ghost use Rattle.holding.specs.Counts.{one_put, one_op};
ghost use Rattle.holding.specs.Stands.{ThreeWords};
ghost use Rattle.holding.specs.declared.shares.Shares.{Shares};
ghost use Rattle.holding.specs.declared.shares.Counts.{Counts};

use crate::shares::{Counts, Shares};
use words::types::{Arithmetic, Comparison, DataType};

// A holding. Its meaning is a fixed function from three words to the word that they stand for, and its counts. No call refuses.
// Each method says what it counts, since a law cannot speak of calls. An operator and its data type are one in the engine
// and two here, since a method is for one sort of operators.
pub trait Holding {
    ghost stands: { Shares → ℕ };

    ghost counts: { Self → Counts };

    fn put_in(&mut self, word: u32) -> Shares
        ensures stands { stands result ≡ word }
        ensures counts { counts self.new ≡ one_put (counts self.old) };

    fn minus(&mut self, x: Shares) -> Shares
        ensures stands { stands result ≡ minus_word (stands x) }
        ensures counts { counts self.new ≡ one_op (counts self.old) };

    fn not(&mut self, x: Shares) -> Shares
        ensures stands { stands result ≡ not_word (stands x) }
        ensures counts { counts self.new ≡ one_op (counts self.old) };

    fn arithmetic(
        &mut self,
        operator: Arithmetic,
        data_type: DataType,
        x: Shares,
        y: Shares,
    ) -> Shares
        ensures stands { stands result ≡ held_arithmetic_word operator data_type (stands x) (stands y) }
        ensures counts { counts self.new ≡ one_op (counts self.old) };

    fn compare(&mut self, operator: Comparison, data_type: DataType, x: Shares, y: Shares) -> Shares
        ensures stands { stands result ≡ comparison_word operator data_type (stands x) (stands y) }
        ensures counts { counts self.new ≡ one_op (counts self.old) };

    fn and(&mut self, x: Shares, y: Shares) -> Shares
        ensures stands { stands result ≡ and_word (stands x) (stands y) }
        ensures counts { counts self.new ≡ one_op (counts self.old) };

    fn or(&mut self, x: Shares, y: Shares) -> Shares
        ensures stands { stands result ≡ or_word (stands x) (stands y) }
        ensures counts { counts self.new ≡ one_op (counts self.old) };

    fn take_out(&self, x: Shares) -> u32
        ensures { result ≡ stands x };

    fn tally(&self) -> Counts
        ensures { result ≡ counts self.now };

    ghost word: { (s : Shares) → ThreeWords s → stands s < 2 ^ 32 };
}
