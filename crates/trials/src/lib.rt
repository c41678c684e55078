// Trials of operators, kinds of levels and holdings on words at the edges of the data types, and of the verdict on files.
#![tactic(auto)]

#[cfg(test)]
mod edges;
#[cfg(test)]
mod files;
#[cfg(test)]
mod holdings;
#[cfg(test)]
mod kinds;
#[cfg(test)]
mod operators;
