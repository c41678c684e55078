// Arguments that have run: their figures wait on the stack, and once all have run the parameters are set, in order.
ghost use Rattle.std.specs.Prelude.{◌≡◌, ◌+◌, ◌≤◌, true, length, Some, None, nat_lt};
ghost use Rattle.semantics.specs.State.{procedure as procedure_at, bound};
ghost use Rattle.semantics.specs.declared.values.Signal.TheVariants.{Argues};
ghost use Rattle.engine.specs.Shape.{in_call, depth_fits, argument_fits};
ghost use Rattle.engine.specs.Standing.{entries};
ghost use Rattle.engine.specs.Passing.{call_of, under_call, passed};
ghost use Rattle.engine.specs.Running.{program, standing, handing};
ghost use Rattle.engine.specs.declared.frames.Frame.TheVariants.{Calling};

use super::Machine;
use crate::frames::{Entry, Frame};
use crate::records::procedure;
use holding::interface::Holding;
use holding::shares::Shares;
use semantics::values::Value;

// A call: its node, its procedure, and the number of the parameter that is set next.
#[derive(Clone, Copy)]
pub struct Call {
    pub node: u16,
    pub procedure: u16,
    pub parameter: usize,
}

impl<H: Holding + Drop> Machine<H> {
    // Takes the call on top with the figures above it off the stack, and sets its parameters to them.
    #[tactic(auto, using(crate::proofs::Passing::bound_more), unfolding(crate::specs::Shape::stack_fits, crate::specs::Shape::in_call, crate::specs::Passing::call_of, crate::specs::Passing::under_call, crate::specs::Passing::passed, semantics::specs::State::bound))]
    fn bind(&mut self) -> Call
        requires { in_call (entries self.old.control) ≡ true }
        ensures tables { self.new.control.tables ≡ self.old.control.tables }
        ensures sheet { self.new.sheet ≡ self.old.sheet }
        ensures entries { entries self.new.control ≡ under_call (entries self.old.control) }
        ensures call { call_of (entries self.old.control) ≡ Calling result.node result.procedure }
        ensures body { nat_lt (procedure_at (program self.old) result.procedure).body result.node ≡ true }
        ensures depth { depth_fits (program self.old) result.node (length (entries self.new.control)) ≡ true }
        ensures parameter { result.parameter ≡ (procedure_at (program self.old) result.procedure).first_parameter + length (passed H.stands (entries self.old.control)) }
        ensures small { result.parameter ≤ 65535 + length (entries self.old.control) }
        ensures kept { self.new.store ≡ bound (program self.old) (procedure_at (program self.old) result.procedure).first_parameter (passed H.stands (entries self.old.control)) self.old.store }
    {
        match self.control.pop() {
            Some(Entry::Passed(figure)) => {
                let call = self.bind();
                self.store
                    .assign(&self.control.tables, call.parameter, figure);
                Call {
                    parameter: call.parameter + 1,
                    ..call
                }
            }
            // a match of its own: a last arm of the outer one would not know that the frame is no call's
            Some(Entry::Frame(frame)) => match frame {
                Frame::Calling(node, number) => Call {
                    node,
                    procedure: number,
                    parameter: procedure(&self.control.tables, number).first_parameter as usize,
                },
                _ => unreachable(),
            },
            None => unreachable(),
        }
    }

    // The last argument has run: its procedure begins.
    #[tactic(auto, unfolding(crate::specs::Shape::stack_fits))]
    fn enter(&mut self, figure: Value<Shares>)
        requires { in_call (entries self.old.control) ≡ true }
        ensures tables { self.new.control.tables ≡ self.old.control.tables }
        ensures stands { standing H.stands self.new ≡ handing H.stands (Some (Argues figure None)) self.old }
    {
        let call = self.bind();
        self.store
            .assign(&self.control.tables, call.parameter, figure);
        let body = self.store.enter(&self.control.tables, call.procedure);
        self.control
            .push(Entry::Frame(Frame::Running(call.node)), body);
    }

    // The figure of an argument comes to its call, which goes on with the next.
    #[tactic(auto, unfolding(crate::specs::Shape::stack_fits))]
    pub(crate) fn pass_figure(&mut self, figure: Value<Shares>, next: Option<u16>)
        requires call { in_call (entries self.old.control) ≡ true }
        requires fits { argument_fits (program self.old) (length (entries self.old.control)) next ≡ true }
        ensures tables { self.new.control.tables ≡ self.old.control.tables }
        ensures stands { standing H.stands self.new ≡ handing H.stands (Some (Argues figure next)) self.old }
    {
        match next {
            Some(argument) => self.control.push(Entry::Passed(figure), argument),
            None => self.enter(figure),
        }
    }
}
