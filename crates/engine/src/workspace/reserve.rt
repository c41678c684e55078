ghost use Rattle.std.specs.Prelude.{IfOk};
ghost use Rattle.tables.specs.View.{Empty};

use super::Workspace;
use crate::sheet::Sheet;
use std::alloc::{AllocError, Global};
use tables::tables::Tables;

// How many nodes a program may have, which bounds the stack.
const NODES: usize = 1024;

impl Workspace {
    pub(crate) fn reserve(heap: Global) -> Result<Workspace, AllocError>
        ensures { IfOk result (λ w. Empty w.tables) }
    {
        let tables = Tables::reserve(heap)?;
        let stack = Vec::with_capacity(heap, NODES)?;
        let sheet = Sheet::reserve(heap)?;
        Ok(Workspace {
            tables,
            stack,
            sheet,
        })
    }
}
