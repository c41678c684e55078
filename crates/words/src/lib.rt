// Words of 32 bits: the data types, the operators of the language, and what each operator gives.
// An internal crate: hosts use `script` or the program `pool`.
#![tactic(auto)]

pub mod ints;
pub mod numbers;
pub mod operators;
pub mod types;
