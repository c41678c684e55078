// The operators on plain words. Each is total: what is asked of any words has an answer.
ghost use Rattle.std.specs.Prelude.{◌≡◌};
ghost use Rattle.words.specs.Operators.{minus_word, not_word, and_word, or_word, arithmetic_word, held_arithmetic_word, comparison_word};
ghost use Rattle.words.specs.Worked.{ArithmeticCases, ComparisonCases};

use crate::ints::{int_of_word, value_at, word_of_int};
use crate::types::{Arithmetic, Comparison, DataType};

// 0 less the word, wrapped.
pub fn minus(a: u32) -> u32
    ensures { result ≡ minus_word a }
{
    a.wrapping_neg()
}

pub fn not(a: u32) -> u32
    ensures { result ≡ not_word a }
{
    u32::from(a == 0)
}

pub fn and(a: u32, b: u32) -> u32
    ensures { result ≡ and_word a b }
{
    u32::from((a != 0) & (b != 0))
}

pub fn or(a: u32, b: u32) -> u32
    ensures { result ≡ or_word a b }
{
    u32::from((a != 0) | (b != 0))
}

impl Arithmetic {
    // The operator's word, or none for a quotient or a remainder by zero.
    #[tactic(auto, using(crate::proofs::Products::product_word))]
    pub fn apply(self, data_type: DataType, a: u32, b: u32) -> Option<u32>
        ensures value { result ≡ arithmetic_word self data_type a b }
        ensures cases { ArithmeticCases }
    {
        match (self, data_type) {
            (Arithmetic::Add, _) => Some(a.wrapping_add(b)),
            (Arithmetic::Subtract, _) => Some(a.wrapping_sub(b)),
            (Arithmetic::Multiply, _) => Some(a.wrapping_mul(b)),
            (Arithmetic::Divide | Arithmetic::Remainder, _) if b == 0 => None,
            (Arithmetic::Divide, DataType::Int) => {
                let quotient = int_of_word(a).wrapping_div(int_of_word(b));
                Some(word_of_int(quotient))
            }
            (Arithmetic::Divide, DataType::Bool | DataType::Unsigned) => Some(a / b),
            (Arithmetic::Remainder, DataType::Int) => {
                let remainder = int_of_word(a).wrapping_rem(int_of_word(b));
                Some(word_of_int(remainder))
            }
            (Arithmetic::Remainder, DataType::Bool | DataType::Unsigned) => Some(a % b),
        }
    }

    // The operator's word among held figures, where a quotient and a remainder by zero have a word too.
    pub fn apply_held(self, data_type: DataType, a: u32, b: u32) -> u32
        ensures { result ≡ held_arithmetic_word self data_type a b }
    {
        self.apply(data_type, a, b).unwrap_or(0)
    }
}

impl Comparison {
    // 1 where the comparison holds, else 0.
    pub fn apply(self, data_type: DataType, a: u32, b: u32) -> u32
        ensures value { result ≡ comparison_word self data_type a b }
        ensures cases { ComparisonCases }
    {
        let x = value_at(data_type, a);
        let y = value_at(data_type, b);
        u32::from(match self {
            Comparison::Equal => a == b,
            Comparison::NotEqual => a != b,
            Comparison::Less => x < y,
            Comparison::LessOrEqual => x <= y,
            Comparison::Greater => y < x,
            Comparison::GreaterOrEqual => y <= x,
        })
    }
}
