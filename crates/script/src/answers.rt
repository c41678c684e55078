// What a line of a script is answered, and how that is written.
ghost use Rattle.std.specs.Prelude.{Some};
ghost use Rattle.script.specs.Texts.{answer_text, line_error_text};

use commands::types::{HoldingKind, LevelKind, Problem};
use holding::shares::Counts;
use program::layout::Layout;
use program::refusal::Refusal;
use std::error::Error;
use std::fmt;

#[derive(Clone, Copy)]
pub enum Answer {
    Levels(LevelKind),
    Holding(HoldingKind),
    Flows(bool),
    Joint(u32),
    // The sum as an int, and the holding's counts.
    Amend { sum: i32, counts: Counts },
    // The counts of a file's records, or its first fault.
    Accepted(Layout),
    Refused(Refusal),
}

// What is wrong with the line of a number.
#[derive(Clone, Copy, Debug, PartialEq, Eq)]
pub struct LineError {
    pub line: usize,
    pub problem: Problem,
}

impl fmt::Display for Answer {
    ghost output = { λ answer. Some (answer_text answer) };

    fn fmt<W: fmt::Write>(&self, f: &mut fmt::Formatter<W>) -> fmt::Result {
        match self {
            Answer::Levels(kind) => write!(f, "levels {kind}"),
            Answer::Holding(kind) => write!(f, "holding {kind}"),
            Answer::Flows(true) => write!(f, "flows yes"),
            Answer::Flows(false) => write!(f, "flows no"),
            Answer::Joint(level) => write!(f, "joint {level}"),
            Answer::Amend {
                sum,
                counts: Counts { puts, ops },
            } => write!(f, "amend {sum} {puts} {ops}"),
            Answer::Accepted(
                Layout {
                    nodes,
                    variables,
                    procedures,
                },
            ) => write!(f, "accepted {nodes} {variables} {procedures}"),
            Answer::Refused(refusal) => {
                write!(f, "refused {} {}", refusal.row(), refusal.place())
            }
        }
    }
}

impl fmt::Display for LineError {
    ghost output = { λ error. Some (line_error_text error) };

    fn fmt<W: fmt::Write>(&self, f: &mut fmt::Formatter<W>) -> fmt::Result {
        write!(f, "error {}: {}", self.line, self.problem)
    }
}

impl Error for LineError {}
