// What stands above a node that runs, and what is done next.
use crate::sheet::Draft;
use crate::wants::Want;
use holding::shares::Shares;
use semantics::lines::Outcome;
use semantics::values::{Signal, Value};

// What stands above a node, each with its own number: as in the model, whose frames have theirs. With a number beside a kind
// each would be longer where it is made and where it is taken apart.
#[derive(Clone, Copy)]
pub enum Frame {
    // it waits for a value
    Wait(u16, Want<Shares>),
    // a sequence, with its second part
    Then(u16, u16),
    // a loop whose body runs, with its guard and its body
    Loop(u16, u16, u16),
    // a call whose arguments run, with its procedure
    Calling(u16, u16),
    // a call whose procedure runs
    Running(u16),
}

// An entry of the stack: a frame, or the figure of an argument that has run, above the frame of its call.
#[derive(Clone, Copy)]
pub enum Entry {
    Frame(Frame),
    Passed(Value<Shares>),
}

// What is done next: begin another node, begin one under a new frame, end, write a line and end, or end the run. That the
// nodes of a move lie below its own is said where one is made, since an enum has no ghost field.
#[derive(Clone, Copy)]
pub enum Move {
    Begin(u16),
    Under(Frame, u16),
    Over(Signal<Shares>),
    Write(Draft, Signal<Shares>),
    Stop(Outcome),
}

// How a run stands: a node is about to begin, or it has ended.
#[derive(Clone, Copy, PartialEq, Eq, Debug)]
pub enum Next {
    Begin(u16),
    Ended(Outcome),
}
