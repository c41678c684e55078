// Running: turns, of which each begins one node.
ghost use Rattle.std.specs.Prelude.{◌≡◌, ◌+◌, ◌^◌, ◌<◌, ◌≤◌};
ghost use Rattle.semantics.specs.Following.{MachineFollows, TurnsAdd};
ghost use Rattle.semantics.specs.Machine as model;
ghost use Rattle.engine.specs.Running.{program, standing};
ghost use Rattle.engine.specs.declared.frames.Next.TheVariants.{Begin};

use super::Machine;
use crate::frames::Next;
use holding::interface::Holding;

impl<H: Holding + Drop> Machine<H> {
    // A node begins, and the run goes on until the next is about to begin.
    fn turn(&mut self, node: u16)
        requires begins { self.old.control.next ≡ Begin node }
        requires fits { self.old.sheet.spent + 1 < 2 ^ 32 }
        ensures tables { self.new.control.tables ≡ self.old.control.tables }
        ensures stands { standing H.stands self.new ≡ model.turn (program self.old) (standing H.stands self.old) }
        ensures spent { self.new.sheet.spent ≡ self.old.sheet.spent + 1 }
    {
        self.sheet.tick();
        let step = self.store.begin(&self.control.tables, node);
        let handed = self.drive(step);
        self.pass(handed);
    }

    // Runs until so many steps are spent and a further node would begin, or the run ends. A run stands where the natural
    // semantics of the program says, and it goes on from where it stood.
    #[tactic(auto, using(semantics::proofs::Theorems::machine_follows, semantics::proofs::Theorems::turns_add), unfolding(semantics::specs::Machine::run))]
    pub(crate) fn run(&mut self, steps: u32)
        requires { self.old.sheet.spent + steps < 2 ^ 32 }
        ensures tables { self.new.control.tables ≡ self.old.control.tables }
        ensures stands { standing H.stands self.new ≡ model.run (program self.old) steps (standing H.stands self.old) }
        ensures spent { self.new.sheet.spent ≤ self.old.sheet.spent + steps }
        ensures follows { MachineFollows (program self.old) }
        ensures adds { TurnsAdd (program self.old) }
    {
        for _ in 0..steps {
            match self.control.next {
                Next::Begin(node) => self.turn(node),
                Next::Ended(_) => return,
            }
        }
    }
}
