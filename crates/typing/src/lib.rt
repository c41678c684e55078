// The static checking of programs: what each node is, the rows that refuse one, and the typing rules that the rows decide.
// An internal crate: hosts use `script` or the program `pool`.
#![tactic(auto)]

pub mod classes;
