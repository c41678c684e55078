// What a file is checked by.
use crate::records::Parts;

// The levels that a file is checked by, and the file in its parts. Each has its own lifetime, as `fill` takes them.
#[derive_where(Clone, Copy)]
pub(crate) struct Check<'l, 'f, L> {
    pub(crate) levels: &'l L,
    pub(crate) parts: Parts<'f>,
}
