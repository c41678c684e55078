// The number of each data type and operator in program files.
ghost use Rattle.std.specs.Prelude.{◌≡◌, Some};
ghost use Rattle.words.specs.Numbers.{type_number, type_numbered, arithmetic_number, arithmetic_numbered, comparison_number, comparison_numbered, found};

use crate::types::{Arithmetic, Comparison, DataType};

// A number that stands for no data type, or for no operator. Nobody prints it, so it has no Display.
#[derive(Clone, Copy, PartialEq, Eq, Debug)]
pub struct UnknownNumber(pub u8);

impl From<DataType> for u8 {
    ghost from_gives = { λ data_type n. n ≡ type_number data_type };

    fn from(data_type: DataType) -> u8
        ensures back { type_numbered result ≡ Some data_type }
    {
        match data_type {
            DataType::Bool => 0,
            DataType::Int => 1,
            DataType::Unsigned => 2,
        }
    }
}

impl TryFrom<u8> for DataType {
    type Error = UnknownNumber;

    ghost try_from_gives = { λ n r. r ≡ found n (type_numbered n) };

    fn try_from(n: u8) -> Result<DataType, UnknownNumber> {
        match n {
            0 => Ok(DataType::Bool),
            1 => Ok(DataType::Int),
            2 => Ok(DataType::Unsigned),
            _ => Err(UnknownNumber(n)),
        }
    }
}

impl From<Arithmetic> for u8 {
    ghost from_gives = { λ operator n. n ≡ arithmetic_number operator };

    fn from(operator: Arithmetic) -> u8
        ensures back { arithmetic_numbered result ≡ Some operator }
    {
        match operator {
            Arithmetic::Add => 0,
            Arithmetic::Subtract => 1,
            Arithmetic::Multiply => 2,
            Arithmetic::Divide => 3,
            Arithmetic::Remainder => 4,
        }
    }
}

impl TryFrom<u8> for Arithmetic {
    type Error = UnknownNumber;

    ghost try_from_gives = { λ n r. r ≡ found n (arithmetic_numbered n) };

    fn try_from(n: u8) -> Result<Arithmetic, UnknownNumber> {
        match n {
            0 => Ok(Arithmetic::Add),
            1 => Ok(Arithmetic::Subtract),
            2 => Ok(Arithmetic::Multiply),
            3 => Ok(Arithmetic::Divide),
            4 => Ok(Arithmetic::Remainder),
            _ => Err(UnknownNumber(n)),
        }
    }
}

impl From<Comparison> for u8 {
    ghost from_gives = { λ operator n. n ≡ comparison_number operator };

    fn from(operator: Comparison) -> u8
        ensures back { comparison_numbered result ≡ Some operator }
    {
        match operator {
            Comparison::Equal => 0,
            Comparison::NotEqual => 1,
            Comparison::Less => 2,
            Comparison::LessOrEqual => 3,
            Comparison::Greater => 4,
            Comparison::GreaterOrEqual => 5,
        }
    }
}

impl TryFrom<u8> for Comparison {
    type Error = UnknownNumber;

    ghost try_from_gives = { λ n r. r ≡ found n (comparison_numbered n) };

    fn try_from(n: u8) -> Result<Comparison, UnknownNumber> {
        match n {
            0 => Ok(Comparison::Equal),
            1 => Ok(Comparison::NotEqual),
            2 => Ok(Comparison::Less),
            3 => Ok(Comparison::LessOrEqual),
            4 => Ok(Comparison::Greater),
            5 => Ok(Comparison::GreaterOrEqual),
            _ => Err(UnknownNumber(n)),
        }
    }
}
