// The operators on figures: on plain words at level 0, and the holding's elsewhere.
ghost use Rattle.std.specs.Prelude.{◌≡◌};
ghost use Rattle.semantics.specs.State.{plain_word, word_in, result as result_at, working, operated, putting, plain_result, held_result};
ghost use Rattle.semantics.specs.declared.values.Value.TheVariants.{Held};
ghost use Rattle.engine.specs.View.{value_of, unary_word};

use crate::figures::plain_word;
use crate::store::Store;
use crate::wants::Unary;
use holding::interface::Holding;
use holding::shares::Shares;
use semantics::values::{Operator, Value};
use words::operators;

fn apply_word(operator: Unary, word: u32) -> u32
    ensures { result ≡ unary_word operator word }
{
    match operator {
        Unary::Minus => operators::minus(word),
        Unary::Not => operators::not(word),
    }
}

// The word of an operator on plain words, or none for a quotient or a remainder by zero.
pub(crate) fn combine_words(operator: Operator, a: u32, b: u32) -> Option<u32>
    ensures { result ≡ plain_result operator a b }
{
    match operator {
        Operator::Arithmetic(operator, data_type) => operator.apply(data_type, a, b),
        Operator::Comparison(operator, data_type) => Some(operator.apply(data_type, a, b)),
        Operator::And => Some(operators::and(a, b)),
        Operator::Or => Some(operators::or(a, b)),
    }
}

impl<H: Holding + Drop> Store<H> {
    // The holding's operator on one figure that it holds.
    fn apply_held(&mut self, operator: Unary, x: Shares) -> Shares
        ensures stands { H.stands result ≡ unary_word operator (H.stands x) }
        ensures kept { self.new ≡ operated self.old }
    {
        match operator {
            Unary::Minus => self.holding.minus(x),
            Unary::Not => self.holding.not(x),
        }
    }

    // An operator of a level on one figure: on its word at level 0, and the holding's elsewhere.
    pub(crate) fn apply(
        &mut self,
        operator: Unary,
        level: u32,
        figure: Value<Shares>,
    ) -> Value<Shares>
        ensures value { value_of H.stands result ≡ result_at level (unary_word operator (plain_word (value_of H.stands figure))) (unary_word operator (word_in (value_of H.stands figure))) }
        ensures kept { self.new ≡ working level (value_of H.stands figure) self.old }
    {
        match level {
            0 => Value::Plain(apply_word(operator, plain_word(figure))),
            _ => {
                let shares = self.hold(figure);
                Value::Held(self.apply_held(operator, shares))
            }
        }
    }

    // The holding's operator on two figures that it holds.
    fn combine_held(&mut self, operator: Operator, x: Shares, y: Shares) -> Shares
        ensures stands { H.stands result ≡ held_result operator (H.stands x) (H.stands y) }
        ensures kept { self.new ≡ operated self.old }
    {
        match operator {
            Operator::Arithmetic(operator, data_type) => self
                .holding
                .arithmetic(operator, data_type, x, y),
            Operator::Comparison(operator, data_type) => self
                .holding
                .compare(operator, data_type, x, y),
            Operator::And => self.holding.and(x, y),
            Operator::Or => self.holding.or(x, y),
        }
    }

    // An operator of a level other than 0 on two figures, of which plain ones are put in, the first one first.
    pub(crate) fn combine(
        &mut self,
        operator: Operator,
        x: Value<Shares>,
        y: Value<Shares>,
    ) -> Value<Shares>
        ensures value { value_of H.stands result ≡ Held (held_result operator (word_in (value_of H.stands x)) (word_in (value_of H.stands y))) }
        ensures kept { self.new ≡ operated (putting (value_of H.stands y) (putting (value_of H.stands x) self.old)) }
    {
        let first = self.hold(x);
        let second = self.hold(y);
        Value::Held(self.combine_held(operator, first, second))
    }
}
