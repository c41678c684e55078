// What the commands of a session script are answered.
#![tactic(auto)]

pub mod amending;
pub mod answers;
pub mod desk;
mod kinds;
