// Programs and their files: records, their decoding, and the layout of a file.
// An internal crate: hosts use `script` or the program `pool`.
#![tactic(auto)]

pub mod decode;
pub mod fields;
pub mod layout;
pub mod records;
pub mod refusal;
