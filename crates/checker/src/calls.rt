// Row 13: the procedure that is called is smaller, and has as many parameters as there are arguments.
ghost use Rattle.std.specs.Prelude.{◌≡◌};
ghost use Rattle.typing.specs.Rows.{calls_fit};
ghost use Rattle.tables.specs.View.{view};

use crate::site::Site;
use levels::Levels;
use program::records::Node;

impl<L: Levels> Site<'_, L> {
    pub(crate) fn calls_fit(&self, node: Node) -> bool
        ensures { result ≡ calls_fit L.Levels.rules (view self.now.tables.now) self.now.procedure node }
    {
        match node {
            Node::Call { procedure, first } => procedure < self.procedure
                && self.call_fits(procedure, first, |_, _| true),
            _ => true,
        }
    }
}
