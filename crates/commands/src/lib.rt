// Session scripts as text: their lines, and the commands that these hold.
#![tactic(auto)]

mod arguments;
mod cutting;
mod fields;
pub mod files;
pub mod lines;
mod numbers;
pub mod reading;
pub mod texts;
pub mod types;
