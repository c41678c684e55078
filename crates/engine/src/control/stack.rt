// The steps of control: what is next, and the entries of the stack, of which the top comes first.
ghost use Rattle.std.specs.Prelude.{◌≡◌, suc, true, ◌∷◌, length};
ghost use Rattle.tables.specs.View.{view};
ghost use Rattle.engine.specs.Shape.{in_call, stack_fits, depth_fits};
ghost use Rattle.engine.specs.Standing.{entries, Popped};
ghost use Rattle.engine.specs.declared.frames.Next.TheVariants.{Begin, Ended};

use super::Control;
use crate::frames::{Entry, Frame, Next};
use semantics::lines::Outcome;

impl Control {
    pub(crate) fn begin(&mut self, node: u16)
        requires { depth_fits (view self.old.tables) node (length (entries self.old)) ≡ true }
        ensures tables { self.new.tables ≡ self.old.tables }
        ensures entries { entries self.new ≡ entries self.old }
        ensures next { self.new.next ≡ Begin node }
    {
        self.next = Next::Begin(node);
    }

    pub(crate) fn end(&mut self, outcome: Outcome)
        ensures tables { self.new.tables ≡ self.old.tables }
        ensures next { self.new.next ≡ Ended outcome }
    {
        self.next = Next::Ended(outcome);
    }

    // A node begins under one entry more.
    pub(crate) fn push(&mut self, entry: Entry, node: u16)
        requires fits { stack_fits (view self.old.tables) (entry ∷ entries self.old) ≡ true }
        requires depth { depth_fits (view self.old.tables) node (suc (length (entries self.old))) ≡ true }
        ensures tables { self.new.tables ≡ self.old.tables }
        ensures entries { entries self.new ≡ entry ∷ entries self.old }
        ensures next { self.new.next ≡ Begin node }
    {
        self.stack.push_reserved(entry);
        self.next = Next::Begin(node);
    }

    #[tactic(auto, unfolding(crate::specs::Shape::stack_fits))]
    pub(crate) fn pop(&mut self) -> Option<Entry>
        ensures tables { self.new.tables ≡ self.old.tables }
        ensures entries { Popped result (entries self.old) (entries self.new) }
    {
        self.stack.pop()
    }

    // Whether the top belongs to a call whose arguments run.
    #[tactic(auto, unfolding(crate::specs::Shape::stack_fits, crate::specs::Shape::in_call))]
    pub(crate) fn in_call(&self) -> bool
        ensures { result ≡ in_call (entries self.now) }
    {
        matches!(
            self.stack.last(),
            Some(Entry::Passed(_) | Entry::Frame(Frame::Calling(_, _)))
        )
    }
}
