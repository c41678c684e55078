// The rows that refuse a decoded node, in order.
ghost use Rattle.std.specs.Prelude.{◌≡◌};
ghost use Rattle.typing.specs.First.{unless};
ghost use Rattle.typing.specs.Rows.{node_rows, first_broken};
ghost use Rattle.tables.specs.View.{view};
ghost use Rattle.checker.specs.Records.{checked};

use crate::site::Site;
use levels::Levels;
use program::records::Node;
use program::refusal::Refusal;

// Refuses what does not pass.
pub(crate) fn require(passes: bool, refusal: Refusal) -> Result<(), Refusal>
    ensures { result ≡ checked tt (unless passes refusal) }
{
    if passes { Ok(()) } else { Err(refusal) }
}

impl<L: Levels> Site<'_, L> {
    // Tries the rows on a node, up to the first that it does not pass.
    pub(crate) fn try_rows(&self, node: Node) -> Result<(), Refusal>
        ensures { result ≡ checked tt (first_broken L.Levels.rules (view self.now.tables.now) self.now.place self.now.procedure node node_rows) }
    {
        let place = self.place;
        require(self.children_fit(node), Refusal::Child(place))?;
        require(self.scope_fits(node), Refusal::Scope(place))?;
        require(self.calls_fit(node), Refusal::Call(place))?;
        require(self.types_fit(node), Refusal::DataType(place))?;
        require(self.levels_fit(node), Refusal::Level(place))?;
        require(self.exits_fit(node), Refusal::Exits(place))
    }
}
