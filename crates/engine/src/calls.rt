// Calls: the locals of a procedure become 0, and its body begins.
ghost use Rattle.std.specs.Prelude.{◌≡◌, true, [], nat_lt};
ghost use Rattle.semantics.specs.Machine.{argued};
ghost use Rattle.semantics.specs.State.{cleared, procedure as procedure_at};
ghost use Rattle.tables.specs.View.{view};
ghost use Rattle.engine.specs.Shape.{next_below, move_below};
ghost use Rattle.engine.specs.View.{move_of};

use crate::frames::{Frame, Move};
use crate::records::procedure;
use crate::store::Store;
use holding::interface::Holding;
use program::records::{Role, Variable};
use semantics::values::Value;
use tables::tables::Tables;

impl<H: Holding + Drop> Store<H> {
    // The locals of a procedure become 0, in the order of their numbers.
    #[tactic(auto, unfolding(semantics::specs::State::cleared))]
    fn clear(&mut self, variables: &[Variable], number: u16)
        ensures { self.new ≡ cleared number 0 variables.now self.old }
    {
        for (i, variable) in variables.iter().enumerate() {
            if variable.role == (Role::Local { procedure: number }) {
                self.set(i, variable.level, Value::Plain(0));
            }
        }
    }

    // A procedure begins whose parameters are set: its locals become 0, and the answer is its body.
    pub(crate) fn enter(&mut self, tables: &Tables, number: u16) -> u16
        ensures answer { result ≡ (procedure_at (view tables.now) number).body }
        ensures kept { self.new ≡ cleared number 0 (view tables.now).variables self.old }
    {
        self.clear(&tables.variables, number);
        procedure(tables, number).body
    }

    // Call `n` goes on with its first argument, or with its procedure.
    #[tactic(auto, unfolding(semantics::specs::State::bound))]
    pub(crate) fn call(&mut self, tables: &Tables, n: u16, number: u16, first: Option<u16>) -> Move
        requires body { nat_lt (procedure_at (view tables.now) number).body n ≡ true }
        requires first { next_below n first ≡ true }
        ensures moves { move_of H.stands result self.new ≡ argued (view tables.now) n number [] first self.old }
        ensures below { move_below (view tables.now) n result ≡ true }
    {
        match first {
            Some(argument) => Move::Under(Frame::Calling(n, number), argument),
            None => Move::Under(Frame::Running(n), self.enter(tables, number)),
        }
    }
}
