// Machines made of programs, and what is seen of their runs.
use super::files::{Program, file_of};
use crate::frames::Next;
use crate::machine::Machine;
use crate::opening;
use crate::workspace::Workspace;
use holding::interface::Holding;
use holding::shares::Counts;
use levels::TwoLevel;
use semantics::lines::{Line, LineKind, Outcome};
use std::alloc::Global;
use std::process::Abort;
use std::test::Fail;
use words::types::DataType;

// A line as a row: its kind, node, steps, data type and word.
pub type LineRow = (LineKind, u16, u32, DataType, u32);

// How a run stands, the steps that it spent, and the words put in and operators done.
#[derive(Clone, Copy, PartialEq, Eq, Debug)]
pub struct Standing {
    pub outcome: Outcome,
    pub spent: u32,
    pub counts: Counts,
}

impl Standing {
    pub(crate) fn of<H: Holding + Drop>(machine: &Machine<H>) -> Standing {
        Standing {
            outcome: outcome(machine.control.next),
            spent: machine.sheet.spent(),
            counts: machine.store.holding.tally(),
        }
    }
}

pub(crate) fn open<H: Holding + Drop>(
    heap: Global,
    program: Program,
    holding: H,
) -> Result<Machine<H>, Fail> {
    let file = file_of(heap, program)?;
    let mut workspace = Workspace::reserve(heap)?;
    match opening::check(&TwoLevel, &mut workspace, &file) {
        Ok(_) => Ok(opening::make(workspace, holding)),
        Err(refusal) => Err(Fail::new(format_args!("row {}", refusal.row()))),
    }
}

pub(crate) fn run<H: Holding + Drop>(rt: &impl Abort, machine: &mut Machine<H>, steps: u16) {
    assert!(rt; machine.sheet.spent() < 10000);
    machine.run(u32::from(steps));
}

fn outcome(next: Next) -> Outcome {
    match next {
        Next::Begin(_) => Outcome::More,
        Next::Ended(outcome) => outcome,
    }
}

fn line((kind, node, steps, data_type, word): LineRow) -> Line {
    Line {
        kind,
        node,
        steps,
        data_type,
        word,
    }
}

// Row by row, since a row of a program's lines is one tuple.
pub(crate) fn check_lines<H: Holding + Drop>(
    rt: &impl Abort,
    machine: &Machine<H>,
    rows: &[LineRow],
) {
    for (written, row) in machine.sheet.lines().iter().zip(rows) {
        assert_eq!(rt; *written, line(*row));
    }
    assert_eq!(rt; machine.sheet.lines().len(), rows.len());
}

// Two machines stand alike and have written the same lines.
pub(crate) fn check_alike<H: Holding + Drop>(
    rt: &impl Abort,
    one: &Machine<H>,
    other: &Machine<H>,
) {
    assert_eq!(rt; one.control.next, other.control.next);
    assert_eq!(rt; Standing::of(one), Standing::of(other));
    assert_eq!(rt; one.sheet.lines(), other.sheet.lines());
}
