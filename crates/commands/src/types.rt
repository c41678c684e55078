// What a line of a script may ask, and what may be wrong with one.

// A kind of levels.
#[derive(Clone, Copy)]
pub enum LevelKind {
    Two,
    Members,
}

// A kind of holding; the split one draws its masks from a word.
#[derive(Clone, Copy)]
pub enum HoldingKind {
    Open,
    Split(u32),
}

#[derive(Clone, Copy)]
pub enum Command {
    Levels(LevelKind),
    Holding(HoldingKind),
    Flows { from: u32, into: u32 },
    Joint { one: u32, other: u32 },
    // Two ints, as words.
    Amend { weight: u32, correction: u32 },
}

// A command that checks a program file: its bytes stand as hexadecimal digits in the script, or in the file of a path.
#[derive(Clone, Copy)]
pub enum FileCommand<'a> {
    Digits(&'a [u8]),
    Path(&'a [u8]),
}

// An argument is numbered from 1: the field after the command's name.
#[derive(Clone, Copy, Debug, PartialEq, Eq)]
pub enum Problem {
    UnknownCommand,
    // How many arguments the command takes.
    ArgumentCount(u8),
    // Which argument is no number of its sort.
    NoWord(u8),
    NoInt(u8),
    UnknownLevels,
    UnknownHolding,
    NoDigits,
    Unreadable,
}
