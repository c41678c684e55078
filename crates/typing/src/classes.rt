// What a node is to the nodes above it.
use program::records::Node;
use words::types::DataType;

// The ways in which a statement may end: it falls through to what follows, returns, breaks or continues.
#[derive(Clone, Copy)]
pub struct Exits {
    pub falls: bool,
    pub returns: bool,
    pub breaks: bool,
    pub continues: bool,
}

// An expression has a data type, unless it is a void call, and a level; a statement has its exits.
#[derive(Clone, Copy)]
pub enum Class {
    Value {
        data_type: Option<DataType>,
        level: u32,
    },
    Argument,
    Statement {
        exits: Exits,
    },
}

// A node that was checked, with the procedure that it belongs to and its class.
#[derive(Clone, Copy)]
pub struct TypedNode {
    pub node: Node,
    pub procedure: u16,
    pub class: Class,
}
