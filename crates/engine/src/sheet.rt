// What everyone may know of a run: its lines, and the steps spent. Lines are written and steps spent here alone.
use semantics::lines::{Line, LineKind};
use std::marker::Model;
use words::types::DataType;

mod writing;

// How many lines a run may write.
pub const LINES: usize = 256;

// A line that is to be written: all of it but the steps, which are those spent by then.
#[derive(Clone, Copy)]
pub struct Draft {
    pub kind: LineKind,
    pub node: u16,
    pub data_type: DataType,
    pub word: u32,
}

// No line more can be written. It ends a run and is not printed.
#[derive(Clone, Copy)]
pub struct LinesFull;

// Clauses see the lines and the steps. There is room for all that may ever be written.
#[derive(Drop)]
pub struct Sheet {
    lines: Vec<Line>,
    spent: u32,
}

impl Model for Sheet {
    ghost use Rattle.std.specs.Prelude.{◌≤◌, vec_capacity, vec_items};
    ghost use Rattle.semantics.specs.State.{Shown};

    ghost Value = { Shown };

    ghost view = { λ s. record { lines = vec_items s.lines; spent = s.spent } };

    ghost invariant = { λ s. 256 ≤ vec_capacity s.lines };
}
