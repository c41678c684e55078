// The calls of a session and what they answer.
use crate::lines::{Line, Outcome};
use words::types::DataType;

// A word for an input, before the start.
#[derive(Clone, Copy)]
pub struct Keying {
    pub variable: u32,
    pub word: u32,
}

// Why a keying is refused: the variable is no input, or was keyed already. Nobody prints it yet, so it has no Display.
#[derive(Clone, Copy)]
pub enum KeyRefusal {
    NotAnInput,
    KeyedAlready,
}

// What may be asked once a session is started.
#[derive(Clone, Copy)]
pub enum Request {
    Run { steps: u32 },
    Line { number: u32 },
    Look { level: u32, variable: u32 },
}

// The steps that a run spent, how it stands then, and how many lines do.
#[derive(Clone, Copy)]
pub struct Ran {
    pub spent: u32,
    pub outcome: Outcome,
    pub lines: u32,
}

// Why a request is refused: too many steps in all, no level, no variable, its level does not flow into the one that looks, or
// no line. Nobody prints it yet, so it has no Display.
#[derive(Clone, Copy)]
pub enum RequestRefusal {
    TooManySteps,
    NoLevel,
    NoVariable,
    NotAllowed,
    NoLine,
}

// A refusal is an answer like the others, since what an observer sees is a list of answers.
#[derive(Clone, Copy)]
pub enum Answer {
    Ran(Ran),
    Line(Line),
    Word { data_type: DataType, word: u32 },
    Refused(RequestRefusal),
}
