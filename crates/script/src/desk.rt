// The desk: what a script has chosen so far, and what its commands are answered by that.
ghost use Rattle.std.specs.Prelude.{◌≡◌};
ghost use Rattle.script.specs.Answers.{new_desk, desk_after, amend_answer, answer_to, check_answer};
ghost use Rattle.script.specs.Replies.{reply_to, desk_after_line};

use crate::amending::amend;
use crate::answers::{Answer, LineError};
use crate::kinds::{flows, joint, verdict};
use checker::verdict::Workspace;
use commands::lines::Line;
use commands::reading::read;
use commands::types::{Command, HoldingKind, LevelKind};
use holding::interface::Holding;
use holding::open::OpenHolding;
use holding::split::SplitHolding;
use words::ints::int_of_word;

#[derive(Clone, Copy)]
pub struct Desk {
    levels: LevelKind,
    holding: HoldingKind,
}

// The answer to an amendment in a holding, with the counts that it then has.
fn amend_in<H: Holding + Drop>(mut holding: H, weight: u32, correction: u32) -> Answer
    ensures { result ≡ amend_answer weight correction (H.counts holding) }
{
    let sum = int_of_word(amend(&mut holding, weight, correction));
    Answer::Amend {
        sum,
        counts: holding.tally(),
    }
}

impl Desk {
    // Two levels and the open holding.
    pub fn new() -> Desk
        ensures { result ≡ new_desk }
    {
        Desk {
            levels: LevelKind::Two,
            holding: HoldingKind::Open,
        }
    }

    pub fn answer(&mut self, command: Command) -> Answer
        ensures value { result ≡ answer_to self.old command }
        ensures after { self.new ≡ desk_after self.old command }
    {
        match command {
            Command::Levels(kind) => {
                self.levels = kind;
                Answer::Levels(kind)
            }
            Command::Holding(kind) => {
                self.holding = kind;
                Answer::Holding(kind)
            }
            Command::Flows { from, into } => Answer::Flows(flows(self.levels, from, into)),
            Command::Joint { one, other } => Answer::Joint(joint(self.levels, one, other)),
            // A `match`, since each holding is made in its own way, and a function that hands out either would need a `dyn`.
            Command::Amend { weight, correction } => match self.holding {
                HoldingKind::Open => amend_in(OpenHolding::new(), weight, correction),
                HoldingKind::Split(mask) => amend_in(SplitHolding::new(mask), weight, correction),
            },
        }
    }

    // The answer to the check of a program file, by the kind of levels that is chosen.
    pub fn check(&self, workspace: &mut Workspace, file: &[u8]) -> Answer
        ensures { result ≡ check_answer self.now file.now }
    {
        match verdict(self.levels, workspace, file) {
            Ok(layout) => Answer::Accepted(layout),
            Err(refusal) => Answer::Refused(refusal),
        }
    }

    // The answer to the command of a line, or nothing where the line holds none.
    pub fn respond(&mut self, line: Line<'_>) -> Result<Option<Answer>, LineError>
        ensures value { result ≡ reply_to self.old line.entry.number line.entry.bytes.now }
        ensures after { self.new ≡ desk_after_line self.old line.entry.bytes.now }
    {
        let command = read(line.bytes).map_err(|problem| LineError {
            line: line.number,
            problem,
        })?;
        // A `match`, since a proof knows nothing of what a closure under `map` leaves of the desk.
        match command {
            None => Ok(None),
            Some(command) => Ok(Some(self.answer(command))),
        }
    }
}
