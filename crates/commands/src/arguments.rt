// The arguments of a command: the fields after its name.
ghost use Rattle.std.specs.Prelude.{◌≡◌, ℕ, List, [], ◌∷◌, Result};
ghost use Rattle.commands.specs.Arguments.{Gave, Taken, Reads, word_argument, int_argument, two_numbers};
ghost use Rattle.commands.specs.Pieces.{fields};

use crate::fields::Fields;
use crate::numbers::{read_int, read_word};
use crate::types::Problem;

// An argument that is read as a word, or as an int. One function for both would be given a reader and a problem, and be no
// shorter.
pub(crate) fn word_argument(number: u8, argument: &[u8]) -> Result<u32, Problem>
    ensures { result ≡ word_argument number argument.now }
{
    read_word(argument).ok_or(Problem::NoWord(number))
}

pub(crate) fn int_argument(number: u8, argument: &[u8]) -> Result<u32, Problem>
    ensures { result ≡ int_argument number argument.now }
{
    read_int(argument).ok_or(Problem::NoInt(number))
}

// The next of the arguments of a command that takes `wanted` in all. No struct holds both: each caller says the count once, and
// `holding` counts anew when it has read its kind.
pub(crate) fn next_argument<'a>(arguments: &mut Fields<'a>, wanted: u8) -> Result<&'a [u8], Problem>
    ensures { Taken wanted (fields arguments.old.rest.now) result (fields arguments.new.rest.now) }
{
    arguments.next().ok_or(Problem::ArgumentCount(wanted))
}

// What is left of the arguments, where it is none, or just one. One function with the count as a const parameter gets no proof:
// the borrow checker covers no `Result` of an array of references.
pub(crate) fn no_argument(mut arguments: Fields, wanted: u8) -> Result<(), Problem>
    ensures { Gave wanted 0 (λ _. []) (fields arguments.entry.rest.now) result }
{
    match arguments.next() {
        None => Ok(()),
        Some(_) => Err(Problem::ArgumentCount(wanted)),
    }
}

pub(crate) fn one_argument<'a>(mut arguments: Fields<'a>, wanted: u8) -> Result<&'a [u8], Problem>
    ensures { Gave wanted 1 (λ x. x.now ∷ []) (fields arguments.entry.rest.now) result }
{
    let only = next_argument(&mut arguments, wanted)?;
    no_argument(arguments, wanted)?;
    Ok(only)
}

// Two arguments, both read as numbers of one sort.
pub(crate) fn two_numbers<F: Fn(u8, &[u8]) -> Result<u32, Problem>>(
    mut arguments: Fields,
    read: F,
) -> Result<(u32, u32), Problem>
    requires { F.IsAlwaysCallable read }
    ensures { (number : ℕ → List ℕ → Result ℕ Problem) → Reads (F.post read) number → result ≡ two_numbers number (fields arguments.entry.rest.now) }
{
    let first = next_argument(&mut arguments, 2)?;
    let second = one_argument(arguments, 2)?;
    Ok((read(1, first)?, read(2, second)?))
}
