// The tables that a file is checked into, with room for the largest file.
ghost use Rattle.std.specs.Prelude.{◌≤◌, vec_capacity};

use program::records::{Procedure, Variable};
use typing::classes::TypedNode;

// How often a node is named as a child.
#[derive(Clone, Copy, PartialEq, Eq)]
pub enum Naming {
    Never,
    Once,
    Often,
}

// What a file holds, and how often each of its nodes is named. The names stand beside the nodes and not in them, since
// a node's checking is done before it is named, and no row but the last reads the count.
#[derive(Drop)]
pub struct Tables {
    pub variables: Vec<Variable>,
    pub procedures: Vec<Procedure>,
    pub nodes: Vec<TypedNode>,
    pub names: Vec<Naming>,
    ghost variables_room: { 128 ≤ vec_capacity variables },
    ghost procedures_room: { 32 ≤ vec_capacity procedures },
    ghost nodes_room: { 1024 ≤ vec_capacity nodes },
    ghost names_room: { 1024 ≤ vec_capacity names },
}
