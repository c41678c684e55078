// What a node does with the value that it waits for.
use semantics::values::{Operator, Value};
use words::types::DataType;

// An operator on one figure.
#[derive(Clone, Copy)]
pub enum Unary {
    Minus,
    Not,
}

#[derive(Clone, Copy)]
pub enum Want<S> {
    // the only operand
    Only(Unary),
    // the first operand: run the second, unless the first decides
    First(Operator, u16),
    Second(Operator, Value<S>),
    // a condition: run one of two arms
    Choose(u16, u16),
    Chosen,
    Assign(u16),
    Argue(Option<u16>),
    Release(DataType),
    Output(DataType),
    Discard,
    Branch(u16),
    BranchElse(u16, u16),
    // the guard of a loop: run its body; the guard's node and the body's
    Guard(u16, u16),
    Return,
}
