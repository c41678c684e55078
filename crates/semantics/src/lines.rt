// The public lines of a run, and how a run stands.
use words::types::DataType;

#[derive(Clone, Copy, PartialEq, Eq, Debug)]
pub enum LineKind {
    Release,
    Output,
}

// A line: which node wrote it and how, the steps spent until then, and the word with its data type.
#[derive(Clone, Copy, PartialEq, Eq, Debug)]
pub struct Line {
    pub kind: LineKind,
    pub node: u16,
    pub steps: u32,
    pub data_type: DataType,
    pub word: u32,
}

// How a run stands: there is more to do, it is finished, or it ended at a zero divisor or at its last line.
#[derive(Clone, Copy, PartialEq, Eq, Debug)]
pub enum Outcome {
    More,
    Finished,
    ZeroDivisor,
    LinesFull,
}
