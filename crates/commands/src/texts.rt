// How kinds and problems are written.
ghost use Rattle.std.specs.Prelude.{Some};
ghost use Rattle.commands.specs.Texts.{level_kind_text, holding_kind_text, problem_text};

use crate::types::{HoldingKind, LevelKind, Problem};
use std::error::Error;
use std::fmt;

impl fmt::Display for LevelKind {
    ghost output = { λ kind. Some (level_kind_text kind) };

    fn fmt<W: fmt::Write>(&self, f: &mut fmt::Formatter<W>) -> fmt::Result {
        match self {
            LevelKind::Two => write!(f, "two"),
            LevelKind::Members => write!(f, "members"),
        }
    }
}

impl fmt::Display for HoldingKind {
    ghost output = { λ kind. Some (holding_kind_text kind) };

    fn fmt<W: fmt::Write>(&self, f: &mut fmt::Formatter<W>) -> fmt::Result {
        match self {
            HoldingKind::Open => write!(f, "open"),
            HoldingKind::Split(mask) => write!(f, "split {mask}"),
        }
    }
}

impl fmt::Display for Problem {
    ghost output = { λ problem. Some (problem_text problem) };

    fn fmt<W: fmt::Write>(&self, f: &mut fmt::Formatter<W>) -> fmt::Result {
        match self {
            Problem::UnknownCommand => write!(f, "unknown command: see docs/SCRIPTS.md"),
            Problem::ArgumentCount(wanted) => write!(
                f,
                "wrong number of arguments: {wanted} wanted"
            ),
            Problem::NoWord(number) => write!(
                f,
                "argument {number} is no word: 0 to 4294967295 wanted"
            ),
            Problem::NoInt(number) => write!(
                f,
                "argument {number} is no int: 0 to 4294967295 or -1 to -2147483648 wanted"
            ),
            Problem::UnknownLevels => write!(f, "unknown kind of levels: two or members wanted"),
            Problem::UnknownHolding => write!(f, "unknown kind of holding: open or split wanted"),
            Problem::NoDigits => write!(
                f,
                "argument 1 is no file: an even number of hexadecimal digits wanted"
            ),
            Problem::Unreadable => write!(f, "the file cannot be read"),
        }
    }
}

impl Error for Problem {}
