// Words and the integers that they stand for in two's complement.
ghost use Rattle.std.specs.Prelude.{◌≡◌};
ghost use Rattle.words.specs.Ints.{int_of, word_of};
ghost use Rattle.words.specs.Operators.{value_at};

use crate::types::DataType;

// The int that a word stands for, whose word it is again.
pub fn int_of_word(word: u32) -> i32
    ensures value { result ≡ int_of word }
    ensures back { word_of result ≡ word }
{
    word.cast_signed()
}

// The word of an int, which stands for that int again.
pub fn word_of_int(int: i32) -> u32
    ensures value { result ≡ word_of int }
    ensures back { int_of result ≡ int }
{
    int.cast_unsigned()
}

// The integer that a word stands for at a data type.
pub fn value_at(data_type: DataType, word: u32) -> i64
    ensures { result ≡ value_at data_type word }
{
    match data_type {
        DataType::Int => i64::from(int_of_word(word)),
        DataType::Bool | DataType::Unsigned => i64::from(word),
    }
}
