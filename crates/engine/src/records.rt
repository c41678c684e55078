// What a run asks of the tables. What stands for a record that is not there is never met in a checked program.
ghost use Rattle.std.specs.Prelude.{◌≡◌, slice_index_or};
ghost use Rattle.typing.specs.Environment.{no_typed_node};
ghost use Rattle.semantics.specs.State.{procedure as procedure_at, figure_type, result_level};
ghost use Rattle.tables.specs.View.{view};

use program::records::{Node, Procedure};
use tables::tables::Tables;
use typing::classes::{Class, TypedNode};
use words::types::DataType;

const NO_NODE: TypedNode = TypedNode {
    node: Node::Break,
    procedure: 0,
    class: Class::Argument,
};

const NO_PROCEDURE: Procedure = Procedure {
    result: None,
    parameters: 0,
    first_parameter: 0,
    body: 0,
    level: 0,
};

pub(crate) fn typed_node(tables: &Tables, number: u16) -> TypedNode
    ensures { result ≡ slice_index_or (view tables.now).nodes number no_typed_node }
{
    tables.node(number).unwrap_or(NO_NODE)
}

pub(crate) fn procedure(tables: &Tables, number: u16) -> Procedure
    ensures { result ≡ procedure_at (view tables.now) number }
{
    tables.procedure(number).unwrap_or(NO_PROCEDURE)
}

// The data type of a figure that is shown or worked on.
pub(crate) fn figure_type(tables: &Tables, node: u16) -> DataType
    ensures { result ≡ figure_type (view tables.now) node }
{
    tables.data_type(node).unwrap_or(DataType::Bool)
}

// The level of the result of the procedure that a node belongs to.
pub(crate) fn result_level(tables: &Tables, node: u16) -> u32
    ensures { result ≡ result_level (view tables.now) node }
{
    procedure(tables, typed_node(tables, node).procedure).level
}
