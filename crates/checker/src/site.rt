// Where a node is checked.
use tables::tables::Tables;

// The levels that a file is checked by, the tables of what stands before a node, the node's procedure and its place.
#[derive_where(Clone, Copy)]
pub(crate) struct Site<'a, L> {
    pub(crate) levels: &'a L,
    pub(crate) tables: &'a Tables,
    pub(crate) procedure: u16,
    pub(crate) place: u16,
}
