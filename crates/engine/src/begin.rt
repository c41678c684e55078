// What a node does as it begins. The tables and the node's number stay two parameters: in a struct that borrows the tables,
// clauses would have to name the two as `site.entry.tables.now` and `site.entry.number`.
ghost use Rattle.std.specs.Prelude.{◌≡◌, true};
ghost use Rattle.semantics.specs.Checked.{Descends};
ghost use Rattle.semantics.specs.Machine.{begins};
ghost use Rattle.semantics.specs.State.{node_of};
ghost use Rattle.tables.specs.View.{view};
ghost use Rattle.engine.specs.Shape.{move_below};
ghost use Rattle.engine.specs.View.{move_of};
ghost use Rattle.engine.specs.declared.frames.Frame.TheVariants.{Wait};
ghost use Rattle.engine.specs.declared.frames.Move.TheVariants.{Under};

use crate::frames::{Frame, Move};
use crate::records::{figure_type, typed_node};
use crate::store::Store;
use crate::wants::{Unary, Want};
use holding::interface::Holding;
use holding::shares::Shares;
use program::records::Node;
use semantics::values::{Operator, Signal, Value};
use tables::tables::Tables;

// Node `n` waits for the value of another.
pub(crate) fn wait(n: u16, want: Want<Shares>, node: u16) -> Move
    ensures { result ≡ Under (Wait n want) node }
{
    Move::Under(Frame::Wait(n, want), node)
}

impl<H: Holding + Drop> Store<H> {
    // The move of node `n` as it begins.
    #[tactic(auto, unfolding(semantics::specs::Machine::begins))]
    pub(crate) fn begin(&mut self, tables: &Tables, n: u16) -> Move
        requires { Descends (view tables.now) }
        ensures moves { move_of H.stands result self.new ≡ begins (view tables.now) n (node_of (view tables.now) n) self.old }
        ensures below { move_below (view tables.now) n result ≡ true }
    {
        match typed_node(tables, n).node {
            Node::Constant { word, .. } => Move::Over(Signal::Gives(Value::Plain(word))),
            Node::Variable { variable } => Move::Over(Signal::Gives(self.read(variable as usize))),
            Node::Minus { operand } => wait(n, Want::Only(Unary::Minus), operand),
            Node::Not { operand } => wait(n, Want::Only(Unary::Not), operand),
            Node::Arithmetic {
                operator,
                left,
                right,
            } => {
                let operator = Operator::Arithmetic(operator, figure_type(tables, left));
                wait(n, Want::First(operator, right), left)
            }
            Node::Comparison {
                operator,
                left,
                right,
            } => {
                let operator = Operator::Comparison(operator, figure_type(tables, left));
                wait(n, Want::First(operator, right), left)
            }
            Node::And { left, right } => wait(n, Want::First(Operator::And, right), left),
            Node::Or { left, right } => wait(n, Want::First(Operator::Or, right), left),
            Node::Choice {
                condition,
                chosen,
                otherwise,
            } => wait(n, Want::Choose(chosen, otherwise), condition),
            Node::Assignment { variable, value } => wait(n, Want::Assign(variable), value),
            Node::Call { procedure, first } => self.call(tables, n, procedure, first),
            Node::Argument { value, next } => wait(n, Want::Argue(next), value),
            Node::Release { operand } => wait(
                n,
                Want::Release(figure_type(tables, operand)),
                operand,
            ),
            Node::Expression { value } => wait(n, Want::Discard, value),
            Node::Sequence { first, second } => Move::Under(Frame::Then(n, second), first),
            Node::If { condition, branch } => wait(n, Want::Branch(branch), condition),
            Node::IfElse {
                condition,
                branch,
                otherwise,
            } => wait(n, Want::BranchElse(branch, otherwise), condition),
            Node::While { condition, body } => wait(n, Want::Guard(condition, body), condition),
            Node::DoWhile { condition, body } => Move::Under(Frame::Loop(n, condition, body), body),
            Node::Return { value } => wait(n, Want::Return, value),
            Node::ReturnVoid => Move::Over(Signal::Returns(None)),
            Node::Break => Move::Over(Signal::Breaks),
            Node::Continue => Move::Over(Signal::Continues),
            Node::Definition { variable } => {
                self.assign(tables, variable as usize, Value::Plain(0));
                Move::Over(Signal::Falls)
            }
            Node::Output { operand } => wait(
                n,
                Want::Output(figure_type(tables, operand)),
                operand,
            ),
        }
    }
}
