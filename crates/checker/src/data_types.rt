// Row 14: data types.
ghost use Rattle.std.specs.Prelude.{◌≡◌};
ghost use Rattle.typing.specs.Environment.{procedure_at, type_of};
ghost use Rattle.typing.specs.Rows.{agree, is_bool, is_void, types_fit};
ghost use Rattle.tables.specs.View.{view};

use crate::operators::takes;
use crate::site::Site;
use levels::Levels;
use program::records::Node;
use words::types::DataType;

// Whether both data types are there and are the same.
pub(crate) fn same_type(one: Option<DataType>, other: Option<DataType>) -> bool
    ensures { result ≡ agree one other }
{
    one.is_some() && one == other
}

impl<L: Levels> Site<'_, L> {
    fn is_bool(&self, node: u16) -> bool
        ensures { result ≡ is_bool (view self.now.tables.now) node }
    {
        self.tables.data_type(node) == Some(DataType::Bool)
    }

    fn is_void(&self) -> bool
        ensures { result ≡ is_void (procedure_at (view self.now.tables.now) self.now.procedure) }
    {
        self.tables
            .procedure(self.procedure)
            .is_some_and(|procedure| procedure.result.is_none())
    }

    fn same_types(&self, one: u16, other: u16) -> bool
        ensures { result ≡ agree (type_of (view self.now.tables.now) one) (type_of (view self.now.tables.now) other) }
    {
        same_type(self.tables.data_type(one), self.tables.data_type(other))
    }

    pub(crate) fn types_fit(&self, node: Node) -> bool
        ensures { result ≡ types_fit L.Levels.rules (view self.now.tables.now) self.now.procedure node }
    {
        let tables = self.tables;
        match node {
            Node::Minus { operand } => tables.data_type(operand) == Some(DataType::Int),
            Node::Not { operand } => self.is_bool(operand),
            Node::Arithmetic {
                operator,
                left,
                right,
            } => self.same_types(left, right)
                && takes(usize::from(u8::from(operator)), tables.data_type(left)),
            Node::Comparison {
                operator,
                left,
                right,
            } => self.same_types(left, right)
                && takes(5 + usize::from(u8::from(operator)), tables.data_type(left)),
            Node::And { left, right } | Node::Or { left, right } => self.is_bool(left)
                && self.is_bool(right),
            Node::Choice {
                condition,
                chosen,
                otherwise,
            } => self.is_bool(condition) && self.same_types(chosen, otherwise),
            Node::Assignment { variable, value } => same_type(
                tables.data_type(value),
                tables.variable_type(variable as usize),
            ),
            Node::Call { procedure, first } => self.call_fits(
                procedure,
                first,
                |parameter, value| {
                    same_type(tables.data_type(value), tables.variable_type(parameter))
                },
            ),
            Node::Release { operand } | Node::Output { operand } => tables
                .data_type(operand)
                .is_some(),
            Node::If { condition, .. }
            | Node::IfElse { condition, .. }
            | Node::While { condition, .. }
            | Node::DoWhile { condition, .. } => self.is_bool(condition),
            Node::Return { value } => same_type(
                tables.data_type(value),
                tables.result_type(self.procedure),
            ),
            Node::ReturnVoid => self.is_void(),
            _ => true,
        }
    }
}
