// The lines of a script, with their numbers.
ghost use Rattle.std.specs.Prelude.{◌≡◌, ◌+◌, ◌^◌, ◌<◌, length};
ghost use Rattle.commands.specs.Pieces.{lines, numbered, Gives};
ghost use Rattle.std.specs.Iterator.{at_most};

use crate::cutting::{Mark, cut};

// A line without its newline; the first has the number 1.
#[derive(Clone, Copy)]
pub struct Line<'a> {
    pub number: usize,
    pub bytes: &'a [u8],
}

// What is left of a script, and how many lines were given: a line has its number with it, and the first is 1.
#[derive(Drop)]
pub struct Lines<'a> {
    rest: &'a [u8],
    count: usize,
    ghost fits: { count + length rest.now < 2 ^ 64 },
}

impl<'a> Lines<'a> {
    pub fn of(script: &'a [u8]) -> Lines<'a>
        ensures rest { result.rest.now ≡ script.now }
        ensures count { result.count ≡ 0 }
    {
        Lines {
            rest: script,
            count: 0,
        }
    }
}

impl<'a> Iterator for Lines<'a> {
    type Item = Line<'a>;

    ghost next_gives = { λ s r t. Gives (λ line. (line.number, line.bytes.now)) (numbered s.count (lines s.rest.now)) r (numbered t.count (lines t.rest.now)) };

    ghost remaining = { λ s. at_most (length s.rest.now) };

    // A call, and not in line: in the middle of a long caller the loop over a line's bytes would read its bound from memory.
    #[inline(never)]
    fn next(&mut self) -> Option<Line<'a>> {
        if self.rest.is_empty() {
            return None;
        }
        let (bytes, rest) = cut(self.rest, Mark::NewLine);
        let number = self.count + 1;
        self.rest = rest;
        self.count = number;
        Some(Line { number, bytes })
    }
}
