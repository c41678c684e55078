// The tables of a checked file: their memory, reserved once, and the lookups of their records by number.
// An internal crate: hosts use `script` or the program `pool`.
#![tactic(auto)]

pub mod lookups;
pub mod memory;
pub mod tables;
