// The data types that operators take.
ghost use Rattle.std.specs.Prelude.{◌≡◌, ◌+◌, ◌<◌, IfSome};
ghost use Rattle.words.specs.Numbers.{type_number, comparison_number};
ghost use Rattle.words.specs.declared.types.Comparison.{Comparison};
ghost use Rattle.typing.specs.Rows.{arithmetic_takes, comparison_takes};
ghost use Rattle.checker.specs.Operators.{allowed};

use words::types::DataType;

// A row for each of + - * / % == != < <= > >=, and a column for bool, int and unsigned.
const ALLOWED: [[bool; 3]; 11] = [
    [false, true, true], // +
    [false, true, true], // -
    [false, true, true], // *
    [false, true, true], // /
    [false, true, true], // %
    [true, true, true], // ==
    [true, true, true], // !=
    [false, true, true], // <
    [false, true, true], // <=
    [false, true, true], // >
    [false, true, true], // >=
];

// Whether the operator of a row takes a data type, if there is one. The table says it, and its rule is proved here, over all
// entries.
pub(crate) fn takes(row: usize, data_type: Option<DataType>) -> bool
    requires { row < 11 }
    ensures table { IfSome data_type (λ t. result ≡ allowed row (type_number t)) }
    ensures arithmetic { row < 5 → result ≡ arithmetic_takes data_type }
    ensures comparison { (o : Comparison) → row ≡ 5 + comparison_number o → result ≡ comparison_takes o data_type }
{
    data_type.is_some_and(|data_type| ALLOWED[row][usize::from(u8::from(data_type))])
}
