// What a node does with the value that it waited for.
ghost use Rattle.std.specs.Prelude.{◌≡◌, true, if◌then◌else◌, nat_lt};
ghost use Rattle.semantics.specs.Machine.{first, got, got_both};
ghost use Rattle.semantics.specs.State.{word_in};
ghost use Rattle.semantics.specs.declared.values.Signal.TheVariants.{Gives, Falls};
ghost use Rattle.tables.specs.View.{view};
ghost use Rattle.engine.specs.Shape.{want_below, move_below};
ghost use Rattle.engine.specs.View.{value_of, want_of, move_of};
ghost use Rattle.engine.specs.declared.frames.Move.TheVariants.{Over, Write};

use crate::begin::wait;
use crate::figures::{decides, holds, plain_word};
use crate::frames::{Frame, Move};
use crate::operators::combine_words;
use crate::records::result_level;
use crate::sheet::Draft;
use crate::store::Store;
use crate::wants::Want;
use holding::interface::Holding;
use holding::shares::Shares;
use semantics::lines::{LineKind, Outcome};
use semantics::values::{Operator, Signal, Value};
use tables::tables::Tables;
use words::types::DataType;

fn give(figure: Value<Shares>) -> Move
    ensures { result ≡ Over (Gives figure) }
{
    Move::Over(Signal::Gives(figure))
}

// A move where a condition holds; elsewhere the node falls through.
fn guarded(holds: bool, step: Move) -> Move
    ensures { result ≡ (if holds then step else Over Falls) }
{
    if holds {
        step
    } else {
        Move::Over(Signal::Falls)
    }
}

// The one place where a draft is made of its parts.
fn line(kind: LineKind, node: u16, data_type: DataType, word: u32, signal: Signal<Shares>) -> Move
    ensures { result ≡ Write (record { kind = kind; node = node; data_type = data_type; word = word }) signal }
{
    let draft = Draft {
        kind,
        node,
        data_type,
        word,
    };
    Move::Write(draft, signal)
}

impl<H: Holding + Drop> Store<H> {
    // The first operand of node `n` has run: it may be the result.
    #[tactic(auto, unfolding(semantics::specs::Machine::got))]
    fn resume_first(
        &mut self,
        tables: &Tables,
        n: u16,
        operator: Operator,
        second: u16,
        figure: Value<Shares>,
    ) -> Move
        requires { nat_lt second n ≡ true }
        ensures moves { move_of H.stands result self.new ≡ got (view tables.now) n (first operator second) (value_of H.stands figure) self.old }
        ensures below { move_below (view tables.now) n result ≡ true }
    {
        if decides(operator, figure) {
            give(self.settle(tables.level(n), figure))
        } else {
            wait(n, Want::Second(operator, figure), second)
        }
    }

    // Both operands of node `n` have run. At level 0 a quotient by zero ends the run.
    fn resume_second(
        &mut self,
        tables: &Tables,
        n: u16,
        operator: Operator,
        x: Value<Shares>,
        y: Value<Shares>,
    ) -> Move
        ensures moves { move_of H.stands result self.new ≡ got_both (view tables.now) n operator (value_of H.stands x) (value_of H.stands y) self.old }
        ensures below { move_below (view tables.now) n result ≡ true }
    {
        match tables.level(n) {
            0 => match combine_words(operator, plain_word(x), plain_word(y)) {
                Some(word) => give(Value::Plain(word)),
                None => Move::Stop(Outcome::ZeroDivisor),
            },
            _ => give(self.combine(operator, x, y)),
        }
    }

    // The word of a figure, taken out if it is held.
    fn word(&self, figure: Value<Shares>) -> u32
        ensures { result ≡ word_in (value_of H.stands figure) }
    {
        match figure {
            Value::Plain(word) => word,
            Value::Held(shares) => self.holding.take_out(shares),
        }
    }

    // The move of node `n`, which gets the value that it waits for.
    #[tactic(auto, unfolding(semantics::specs::Machine::got))]
    pub(crate) fn resume(
        &mut self,
        tables: &Tables,
        n: u16,
        want: Want<Shares>,
        figure: Value<Shares>,
    ) -> Move
        requires { want_below n want ≡ true }
        ensures moves { move_of H.stands result self.new ≡ got (view tables.now) n (want_of H.stands want) (value_of H.stands figure) self.old }
        ensures below { move_below (view tables.now) n result ≡ true }
    {
        match want {
            Want::Only(operator) => give(self.apply(operator, tables.level(n), figure)),
            Want::First(operator, second) => self.resume_first(tables, n, operator, second, figure),
            Want::Second(operator, first) => self.resume_second(tables, n, operator, first, figure),
            Want::Choose(chosen, otherwise) => wait(
                n,
                Want::Chosen,
                if holds(figure) { chosen } else { otherwise },
            ),
            Want::Chosen => give(self.settle(tables.level(n), figure)),
            Want::Assign(variable) => give(self.assign(tables, variable as usize, figure)),
            Want::Argue(next) => Move::Over(Signal::Argues(figure, next)),
            Want::Release(data_type) => {
                let word = self.word(figure);
                let shown = Signal::Gives(Value::Plain(word));
                line(LineKind::Release, n, data_type, word, shown)
            }
            Want::Output(data_type) => {
                line(
                    LineKind::Output,
                    n,
                    data_type,
                    plain_word(figure),
                    Signal::Falls,
                )
            }
            Want::Discard => Move::Over(Signal::Falls),
            Want::Branch(node) => guarded(holds(figure), Move::Begin(node)),
            Want::BranchElse(branch, otherwise) => {
                Move::Begin(if holds(figure) { branch } else { otherwise })
            }
            Want::Guard(guard, body) => guarded(
                holds(figure),
                Move::Under(Frame::Loop(n, guard, body), body),
            ),
            Want::Return => Move::Over(Signal::Returns(Some(self.settle(
                result_level(tables, n),
                figure,
            )))),
        }
    }
}
