// What a frame does with the end of what it stands above.
ghost use Rattle.std.specs.Prelude.{◌≡◌, ℕ, suc, true, false, ◌&&◌, List};
ghost use Rattle.semantics.specs.Machine.{meets};
ghost use Rattle.semantics.specs.declared.values.Value.{Value};
ghost use Rattle.tables.specs.View.{view};
ghost use Rattle.engine.specs.Shape.{number, is_argument, is_calling, frame_below, depth_fits, signal_fits, move_fits};
ghost use Rattle.engine.specs.View.{signal_of, frame_of, move_of};

use crate::begin::wait;
use crate::frames::{Frame, Move};
use crate::store::Store;
use crate::wants::Want;
use holding::interface::Holding;
use holding::shares::Shares;
use semantics::values::Signal;
use tables::tables::Tables;

impl<H: Holding + Drop> Store<H> {
    // The move of a frame, unless it is a call's and the signal an argument's.
    #[tactic(auto, unfolding(semantics::specs::Machine::meets))]
    pub(crate) fn meet(&mut self, tables: &Tables, frame: Frame, signal: Signal<Shares>) -> Move
        requires below { frame_below (view tables.now) frame ≡ true }
        requires apart { (is_argument signal && is_calling frame) ≡ false }
        ensures moves { (xs : List (Value ℕ)) → move_of H.stands result self.new ≡ meets (view tables.now) (frame_of H.stands xs frame) (signal_of H.stands signal) self.old }
        ensures fits { (depth : ℕ) → depth_fits (view tables.now) (number frame) depth ≡ true → signal_fits (view tables.now) (suc depth) signal ≡ true → move_fits (view tables.now) depth result ≡ true }
    {
        match (frame, signal) {
            (Frame::Wait(n, want), Signal::Gives(figure)) => self.resume(tables, n, want, figure),
            (Frame::Then(_, second), Signal::Falls) => Move::Begin(second),
            (Frame::Loop(n, guard, body), Signal::Falls | Signal::Continues) => {
                wait(n, Want::Guard(guard, body), guard)
            }
            (Frame::Loop(_, _, _), Signal::Breaks) => Move::Over(Signal::Falls),
            (Frame::Running(_), Signal::Returns(Some(figure))) => Move::Over(Signal::Gives(figure)),
            (Frame::Running(_), Signal::Returns(None)) => Move::Over(Signal::Falls),
            _ => Move::Over(signal),
        }
    }
}
