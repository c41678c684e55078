// Row 15: levels.
ghost use Rattle.std.specs.Prelude.{◌≡◌};
ghost use Rattle.typing.specs.Rows.{is_public, levels_fit};
ghost use Rattle.tables.specs.View.{view};

use crate::site::Site;
use levels::Levels;
use program::records::Node;

impl<L: Levels> Site<'_, L> {
    fn is_public(&self, node: u16) -> bool
        ensures { result ≡ is_public (view self.now.tables.now) node }
    {
        self.tables.level(node) == 0
    }

    pub(crate) fn levels_fit(&self, node: Node) -> bool
        ensures { result ≡ levels_fit L.Levels.rules (view self.now.tables.now) self.now.procedure node }
    {
        let tables = self.tables;
        match node {
            Node::Choice { condition, .. }
            | Node::If { condition, .. }
            | Node::IfElse { condition, .. }
            | Node::While { condition, .. }
            | Node::DoWhile { condition, .. } => self.is_public(condition),
            Node::Assignment { variable, value } => self.levels.flows(
                tables.level(value),
                tables.variable_level(variable as usize),
            ),
            Node::Call { procedure, first } => self.call_fits(
                procedure,
                first,
                |parameter, value| {
                    self.levels
                        .flows(tables.level(value), tables.variable_level(parameter))
                },
            ),
            Node::Return { value } => self
                .levels
                .flows(tables.level(value), tables.result_level(self.procedure)),
            Node::Output { operand } => self.is_public(operand),
            _ => true,
        }
    }
}
