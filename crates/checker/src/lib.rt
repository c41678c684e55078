// The static check of a program file, into tables whose memory is reserved once.
// An internal crate: hosts use `script` or the program `pool`.
#![tactic(auto)]

mod arguments;
mod bodies;
mod calls;
mod check;
mod children;
mod class;
mod data_types;
mod exits;
pub mod fill;
mod flows;
mod names;
mod nodes;
mod operators;
mod procedures;
mod records;
mod rows;
mod scope;
mod site;
mod variables;
pub mod verdict;
