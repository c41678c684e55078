// The commands that check a program file, and the bytes that hexadecimal digits write.
ghost use Rattle.std.specs.Prelude.{◌≡◌, ◌<◌, IfSome, IfOk, vec_items};
ghost use Rattle.std.specs.Option.{option_map};
ghost use Rattle.commands.specs.Pieces.{fields};
ghost use Rattle.commands.specs.Files.{source_named, file_command_by, file_command_of, shown_command, digit_in, byte_of, bytes_of};

use crate::arguments::one_argument;
use crate::fields::{Fields, name_and_arguments};
use crate::types::{FileCommand, Problem};
use std::alloc::{AllocError, Global};

// The command of a name, if it is one that checks a program file.
fn file_command<'a>(name: &[u8], arguments: Fields<'a>) -> Result<Option<FileCommand<'a>>, Problem>
    ensures { shown_command result ≡ file_command_by (source_named name.now) (fields arguments.entry.rest.now) }
{
    match name {
        b"check" => one_argument(arguments, 1)
            .map(FileCommand::Digits)
            .map(Some),
        b"check-file" => one_argument(arguments, 1).map(FileCommand::Path).map(Some),
        _ => Ok(None),
    }
}

// The command of a line that checks a program file, or nothing where the line holds another command or none.
pub fn read_file_command(line: &[u8]) -> Result<Option<FileCommand<'_>>, Problem>
    ensures { shown_command result ≡ file_command_of line.now }
{
    match name_and_arguments(line) {
        None => Ok(None),
        Some((name, arguments)) => file_command(name, arguments),
    }
}

fn digit(byte: u8) -> Option<u8>
    ensures value { result ≡ digit_in byte }
    ensures bound { IfSome result (λ d. d < 16) }
{
    char::from(byte).to_digit(16).map(|digit| digit as u8)
}

fn byte(high: u8, low: u8) -> Option<u8>
    ensures { result ≡ byte_of high low }
{
    Some(digit(high)? * 16 + digit(low)?)
}

// The bytes that hexadecimal digits write, or nothing where they write none.
pub fn decode_digits(heap: Global, text: &[u8]) -> Result<Option<Vec<u8>>, AllocError>
    ensures { IfOk result (λ o. option_map vec_items o ≡ bytes_of text.now) }
{
    let (pairs, []) = text.as_chunks::<2>() else {
        return Ok(None);
    };
    let mut bytes = Vec::new(heap);
    for [high, low] in pairs {
        let Some(byte) = byte(*high, *low) else {
            return Ok(None);
        };
        bytes.push(byte)?;
    }
    Ok(Some(bytes))
}
