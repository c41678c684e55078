// The engine: checked programs run over a holding. Closed: no call of it can be made from another crate yet.
// An internal crate: hosts use `script` or the program `pool`.
#![tactic(auto)]

mod begin;
mod calls;
mod cells;
mod control;
mod figures;
mod frames;
mod machine;
mod meet;
mod opening;
mod operators;
mod records;
mod resume;
mod sheet;
mod store;
#[cfg(test)]
mod tests;
mod wants;
mod workspace;
