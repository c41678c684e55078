// The memory of the tables: reserved once, and emptied before a file is checked.
ghost use Rattle.std.specs.Prelude.{IfOk};
ghost use Rattle.tables.specs.View.{Empty};

use crate::tables::Tables;
use std::alloc::{AllocError, Global};

impl Tables {
    // Empty tables, in memory that serves for any number of files.
    pub fn reserve(heap: Global) -> Result<Tables, AllocError>
        ensures { IfOk result Empty }
    {
        let variables = Vec::with_capacity(heap, 128)?;
        let procedures = Vec::with_capacity(heap, 32)?;
        let nodes = Vec::with_capacity(heap, 1024)?;
        let names = Vec::with_capacity(heap, 1024)?;
        Ok(Tables {
            variables,
            procedures,
            nodes,
            names,
        })
    }

    pub fn clear(&mut self)
        ensures { Empty self.new }
    {
        self.variables.clear();
        self.procedures.clear();
        self.nodes.clear();
        self.names.clear();
    }
}
