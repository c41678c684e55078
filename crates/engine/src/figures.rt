// What is asked of figures that may be plain. The answers are the same whatever three words stand for: that is the holding's to
// say, so a figure has no model, and clauses say what it stands for.
ghost use Rattle.std.specs.Prelude.{◌≡◌, ℕ};
ghost use Rattle.holding.specs.declared.shares.Shares.{Shares};
ghost use Rattle.semantics.specs.State.{plain_word, holds as is_true, decides as is_deciding};
ghost use Rattle.engine.specs.View.{value_of};

use holding::shares::Shares;
use semantics::values::{Operator, Value};

// The word where a plain one is due. In a checked program a held one is never met there.
pub(crate) fn plain_word(figure: Value<Shares>) -> u32
    ensures { (stands : Shares → ℕ) → result ≡ plain_word (value_of stands figure) }
{
    match figure {
        Value::Plain(word) => word,
        Value::Held(_) => 0,
    }
}

pub(crate) fn holds(figure: Value<Shares>) -> bool
    ensures { (stands : Shares → ℕ) → result ≡ is_true (value_of stands figure) }
{
    plain_word(figure) != 0
}

// A first operand decides where it is plain, and 0 for and, or anything else for or.
pub(crate) fn decides(operator: Operator, figure: Value<Shares>) -> bool
    ensures { (stands : Shares → ℕ) → result ≡ is_deciding operator (value_of stands figure) }
{
    match (operator, figure) {
        (Operator::And, Value::Plain(word)) => word == 0,
        (Operator::Or, Value::Plain(word)) => word != 0,
        (_, _) => false,
    }
}
