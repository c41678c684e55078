// Figures while a program runs, the operators on two of them, and how a node ends.
use words::types::{Arithmetic, Comparison, DataType};

// A figure: a plain word, or a held one. The code has three words for a held one, and the model the word that they stand for.
#[derive(Clone, Copy)]
pub enum Value<S> {
    Plain(u32),
    Held(S),
}

// An operator on two figures, with the data type of its operands where that counts.
#[derive(Clone, Copy)]
pub enum Operator {
    Arithmetic(Arithmetic, DataType),
    Comparison(Comparison, DataType),
    And,
    Or,
}

// How a node ends. An argument ends with its value and the argument that comes after it.
#[derive(Clone, Copy)]
pub enum Signal<S> {
    Gives(Value<S>),
    Argues(Value<S>, Option<u16>),
    Falls,
    Returns(Option<Value<S>>),
    Breaks,
    Continues,
}
