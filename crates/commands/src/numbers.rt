// Reading the numbers that fields write.
ghost use Rattle.std.specs.Prelude.{◌≡◌};
ghost use Rattle.commands.specs.Numbers.{word_in, negative, int_in};

use std::str::from_utf8;
use words::operators::minus;

// The word that a field writes in decimal, with no sign before it. Where the first byte is no digit, none other is read.
pub fn read_word(field: &[u8]) -> Option<u32>
    ensures { result ≡ word_in field.now }
{
    if !field.first()?.is_ascii_digit() {
        return None;
    }
    from_utf8(field).ok()?.parse().ok()
}

// The word of the int below 0 that is the number's opposite.
fn opposite(number: u32) -> Option<u32>
    ensures { result ≡ negative number }
{
    (1..=0x8000_0000).contains(&number).then(|| minus(number))
}

// The word of the int that a field writes: a word in decimal, or a negative int.
pub fn read_int(field: &[u8]) -> Option<u32>
    ensures { result ≡ int_in field.now }
{
    match field {
        [b'-', digits @ ..] => opposite(read_word(digits)?),
        _ => read_word(field),
    }
}
