// A move is done, and a signal goes up. That a signal that goes on fits is said by each step, since an Option has no ghost field.
ghost use Rattle.std.specs.Prelude.{◌≡◌, true, false, ◌&&◌, length, Some};
ghost use Rattle.engine.specs.Shape.{is_argument, in_call, signal_fits, move_fits};
ghost use Rattle.engine.specs.Standing.{entries};
ghost use Rattle.engine.specs.Running.{program, standing, handing, driving, handed_fits, HandedSame, HandedLess};

use super::Machine;
use crate::frames::{Entry, Move};
use crate::sheet::LinesFull;
use holding::interface::Holding;
use holding::shares::Shares;
use semantics::lines::Outcome;
use semantics::values::Signal;

impl<H: Holding + Drop> Machine<H> {
    // Does a move, and answers the signal that goes on up. In line where the move is made: handed over in memory, it would make
    // a step take half as long again and more.
    #[inline(always)]
    #[tactic(auto, unfolding(crate::specs::Shape::stack_fits, crate::specs::View::frames_of))]
    pub(crate) fn drive(&mut self, step: Move) -> Option<Signal<Shares>>
        requires { move_fits (program self.old) (length (entries self.old.control)) step ≡ true }
        ensures tables { self.new.control.tables ≡ self.old.control.tables }
        ensures stands { handing H.stands result self.new ≡ driving H.stands step self.old }
        ensures entries { HandedSame result (entries self.old.control) (entries self.new.control) }
        ensures fits { handed_fits (program self.new) (length (entries self.new.control)) result ≡ true }
    {
        match step {
            Move::Begin(node) => {
                self.control.begin(node);
                None
            }
            Move::Under(frame, node) => {
                self.control.push(Entry::Frame(frame), node);
                None
            }
            Move::Over(signal) => Some(signal),
            Move::Write(draft, signal) => match self.sheet.write(draft) {
                Ok(()) => Some(signal),
                Err(LinesFull) => {
                    self.control.end(Outcome::LinesFull);
                    None
                }
            },
            Move::Stop(outcome) => {
                self.control.end(outcome);
                None
            }
        }
    }

    // A signal meets the entry on top, unless it is an argument's and the entry its call's.
    #[tactic(auto, unfolding(crate::specs::Shape::stack_fits, crate::specs::Shape::in_call, crate::specs::View::frames_of, semantics::specs::Machine::pass))]
    fn meet_top(&mut self, signal: Signal<Shares>) -> Option<Signal<Shares>>
        requires fits { signal_fits (program self.old) (length (entries self.old.control)) signal ≡ true }
        requires apart { (is_argument signal && in_call (entries self.old.control)) ≡ false }
        ensures tables { self.new.control.tables ≡ self.old.control.tables }
        ensures stands { handing H.stands result self.new ≡ handing H.stands (Some signal) self.old }
        ensures entries { HandedLess result (entries self.old.control) (entries self.new.control) }
        ensures fits { handed_fits (program self.new) (length (entries self.new.control)) result ≡ true }
    {
        match self.control.pop() {
            None => {
                self.control.end(Outcome::Finished);
                None
            }
            Some(Entry::Passed(_)) => Some(signal),
            Some(Entry::Frame(frame)) => {
                let step = self.store.meet(&self.control.tables, frame, signal);
                self.drive(step)
            }
        }
    }

    fn meet(&mut self, signal: Signal<Shares>) -> Option<Signal<Shares>>
        requires { signal_fits (program self.old) (length (entries self.old.control)) signal ≡ true }
        ensures tables { self.new.control.tables ≡ self.old.control.tables }
        ensures stands { handing H.stands result self.new ≡ handing H.stands (Some signal) self.old }
        ensures entries { HandedLess result (entries self.old.control) (entries self.new.control) }
        ensures fits { handed_fits (program self.new) (length (entries self.new.control)) result ≡ true }
    {
        match signal {
            Signal::Argues(figure, next) if self.control.in_call() => {
                self.pass_figure(figure, next);
                None
            }
            _ => self.meet_top(signal),
        }
    }

    // A signal goes up, until a node is about to begin or the run has ended.
    pub(crate) fn pass(&mut self, mut handed: Option<Signal<Shares>>)
        requires { handed_fits (program self.old) (length (entries self.old.control)) handed ≡ true }
        ensures tables { self.new.control.tables ≡ self.old.control.tables }
        ensures stands { standing H.stands self.new ≡ handing H.stands handed self.old }
    {
        while let Some(signal) = handed {
            handed = self.meet(signal);
        }
    }
}
