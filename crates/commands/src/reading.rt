// Reading the command that a line holds.
ghost use Rattle.std.specs.Prelude.{◌≡◌};
ghost use Rattle.commands.specs.Commands.{level_kind_named, level_kind, open_kind, split_kind, holding_kind, command_named, command_of};
ghost use Rattle.commands.specs.Pieces.{fields};

use crate::arguments::{
    int_argument, next_argument, no_argument, one_argument, two_numbers, word_argument,
};
use crate::fields::{Fields, name_and_arguments};
use crate::types::{Command, HoldingKind, LevelKind, Problem};

impl TryFrom<&[u8]> for LevelKind {
    type Error = Problem;

    ghost try_from_gives = { λ name r. r ≡ level_kind_named name.now };

    fn try_from(name: &[u8]) -> Result<LevelKind, Problem> {
        match name {
            b"two" => Ok(LevelKind::Two),
            b"members" => Ok(LevelKind::Members),
            _ => Err(Problem::UnknownLevels),
        }
    }
}

fn level_kind(arguments: Fields) -> Result<LevelKind, Problem>
    ensures { result ≡ level_kind (fields arguments.entry.rest.now) }
{
    LevelKind::try_from(one_argument(arguments, 1)?)
}

fn open_kind(arguments: Fields) -> Result<HoldingKind, Problem>
    ensures { result ≡ open_kind (fields arguments.entry.rest.now) }
{
    no_argument(arguments, 1)?;
    Ok(HoldingKind::Open)
}

fn split_kind(arguments: Fields) -> Result<HoldingKind, Problem>
    ensures { result ≡ split_kind (fields arguments.entry.rest.now) }
{
    let mask = one_argument(arguments, 2)?;
    word_argument(2, mask).map(HoldingKind::Split)
}

fn holding_kind(mut arguments: Fields) -> Result<HoldingKind, Problem>
    ensures { result ≡ holding_kind (fields arguments.entry.rest.now) }
{
    match next_argument(&mut arguments, 1)? {
        b"open" => open_kind(arguments),
        b"split" => split_kind(arguments),
        _ => Err(Problem::UnknownHolding),
    }
}

fn command(name: &[u8], arguments: Fields) -> Result<Command, Problem>
    ensures { result ≡ command_named name.now (fields arguments.entry.rest.now) }
{
    match name {
        b"levels" => level_kind(arguments).map(Command::Levels),
        b"holding" => holding_kind(arguments).map(Command::Holding),
        b"flows" => two_numbers(arguments, word_argument).map(|(from, into)| Command::Flows {
            from,
            into,
        }),
        b"joint" => two_numbers(arguments, word_argument).map(|(one, other)| Command::Joint {
            one,
            other,
        }),
        b"amend" => two_numbers(arguments, int_argument).map(|(weight, correction)| Command::Amend {
            weight,
            correction,
        }),
        _ => Err(Problem::UnknownCommand),
    }
}

// The command of a line, or nothing where the line holds only blanks and a comment.
pub fn read(line: &[u8]) -> Result<Option<Command>, Problem>
    ensures { result ≡ command_of line.now }
{
    match name_and_arguments(line) {
        None => Ok(None),
        Some((name, arguments)) => command(name, arguments).map(Some),
    }
}
