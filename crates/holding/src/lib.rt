// Holdings of undisclosed figures: secret-sharing backends in which three words stand for one.
// An internal crate: hosts use `script` or the program `pool`.
#![tactic(auto)]

pub mod interface;
pub mod open;
pub mod shares;
pub mod split;
