// What it is for a program to run: figures, frames, lines and calls, and the definitions and theorems over them.
// An internal crate: hosts use `script` or the program `pool`.
#![tactic(auto)]

mod calls;
pub mod lines;
pub mod values;
