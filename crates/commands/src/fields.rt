// The fields of a line: what blanks part.
ghost use Rattle.std.specs.Prelude.{◌≡◌, [], ◌∷◌, length, MatchOption};
ghost use Rattle.commands.specs.Pieces.{uncommented, fields, Gives};
ghost use Rattle.std.specs.Iterator.{at_most};

use crate::cutting::{Mark, cut};

#[derive(Drop)]
pub struct Fields<'a> {
    rest: &'a [u8],
}

impl<'a> Iterator for Fields<'a> {
    type Item = &'a [u8];

    ghost next_gives = { λ s r t. Gives (λ x. x.now) (fields s.rest.now) r (fields t.rest.now) };

    ghost remaining = { λ s. at_most (length s.rest.now) };

    fn next(&mut self) -> Option<&'a [u8]> {
        while !self.rest.is_empty() {
            let (piece, rest) = cut(self.rest, Mark::Blank);
            self.rest = rest;
            if !piece.is_empty() {
                return Some(piece);
            }
        }
        None
    }
}

// The name of a line's command and its arguments: the first field before the comment, and the fields after it.
pub fn name_and_arguments(line: &[u8]) -> Option<(&[u8], Fields<'_>)>
    ensures { MatchOption result (fields (uncommented line.now) ≡ []) (λ p. fields (uncommented line.now) ≡ p.0.now ∷ fields p.1.rest.now) }
{
    let (text, _) = cut(line, Mark::Hash);
    let mut fields = Fields { rest: text };
    let name = fields.next()?;
    Some((name, fields))
}
