// Where a run stands in its program.
ghost use Rattle.std.specs.Prelude.{◌≡◌, ◌≤◌, true, reverse, length, vec_len, vec_capacity};
ghost use Rattle.semantics.specs.Checked.{Descends};
ghost use Rattle.tables.specs.View.{view};
ghost use Rattle.engine.specs.Shape.{stack_fits, next_fits};

use crate::frames::{Entry, Next};
use tables::tables::Tables;

mod stack;

// The program, the stack above what is next, and what that is. The stack has room for all that may ever stand on it. No model:
// clauses read the fields, and the proofs of the machine the ghost ones. So each step says too that the tables stay.
#[derive(Drop)]
pub struct Control {
    pub tables: Tables,
    pub stack: Vec<Entry>,
    pub next: Next,
    ghost descends: { Descends (view tables) },
    ghost few: { vec_len tables.nodes ≤ 1024 },
    ghost room: { 1024 ≤ vec_capacity stack },
    ghost fits: { stack_fits (view tables) (reverse stack.items) ≡ true },
    ghost going: { next_fits (view tables) (length (reverse stack.items)) next ≡ true },
}
