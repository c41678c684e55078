// Trials of the operators on plain words. A bool is computed and compared as an unsigned word.
use crate::edges;
use crate::edges::{DATA_TYPES, EDGES, Table};
use std::process::Abort;
use words::operators;
use words::types::{Arithmetic, Comparison, DataType};

// Every edge gives the word in the row.
fn try_one<F: Fn(u32) -> u32>(rt: &impl Abort, operator: F, row: &[u32; 7])
    requires { F.IsAlwaysCallable operator }
{
    for (a, word) in EDGES.iter().zip(row) {
        assert_eq!(rt; operator(*a), *word);
    }
}

// Every two edges give the word in the table.
fn try_two<F: Fn(u32, u32) -> u32>(rt: &impl Abort, operator: F, table: &Table)
    requires { F.IsAlwaysCallable operator }
{
    for (a, row) in EDGES.iter().zip(table) {
        try_one(rt, |b| operator(*a, b), row);
    }
}

#[test]
fn minus_and_not(rt: HostRuntime) {
    try_one(&rt, operators::minus, &edges::OPPOSITES);
    try_one(&rt, operators::not, &edges::NEGATIONS);
}

#[test]
fn and_and_or(rt: HostRuntime) {
    try_two(&rt, operators::and, &edges::BOTH);
    try_two(&rt, operators::or, &edges::EITHER);
}

#[test]
fn sums_differences_and_products(rt: HostRuntime) {
    for data_type in DATA_TYPES {
        for (operator, table) in [
            (Arithmetic::Add, &edges::SUMS),
            (Arithmetic::Subtract, &edges::DIFFERENCES),
            (Arithmetic::Multiply, &edges::PRODUCTS),
        ] {
            try_two(&rt, |a, b| operator.apply_held(data_type, a, b), table);
        }
    }
}

#[test]
fn quotients_and_remainders(rt: HostRuntime) {
    for (operator, table) in [
        (Arithmetic::Divide, &edges::INT_QUOTIENTS),
        (Arithmetic::Remainder, &edges::INT_REMAINDERS),
    ] {
        try_two(&rt, |a, b| operator.apply_held(DataType::Int, a, b), table);
    }
    for data_type in [DataType::Bool, DataType::Unsigned] {
        for (operator, table) in [
            (Arithmetic::Divide, &edges::UNSIGNED_QUOTIENTS),
            (Arithmetic::Remainder, &edges::UNSIGNED_REMAINDERS),
        ] {
            try_two(&rt, |a, b| operator.apply_held(data_type, a, b), table);
        }
    }
}

#[test]
fn none_by_zero(rt: HostRuntime) {
    for data_type in DATA_TYPES {
        for a in EDGES {
            assert_eq!(rt; Arithmetic::Divide.apply(data_type, a, 0), None);
            assert_eq!(rt; Arithmetic::Remainder.apply(data_type, a, 0), None);
            assert_eq!(rt; Arithmetic::Multiply.apply(data_type, a, 0), Some(0));
        }
    }
}

#[test]
fn comparisons_of_ints(rt: HostRuntime) {
    for (operator, table) in [
        (Comparison::Equal, &edges::EQUAL),
        (Comparison::NotEqual, &edges::NOT_EQUAL),
        (Comparison::Less, &edges::INT_LESS),
        (Comparison::LessOrEqual, &edges::INT_LESS_OR_EQUAL),
        (Comparison::Greater, &edges::INT_GREATER),
        (Comparison::GreaterOrEqual, &edges::INT_GREATER_OR_EQUAL),
    ] {
        try_two(&rt, |a, b| operator.apply(DataType::Int, a, b), table);
    }
}

#[test]
fn comparisons_of_words(rt: HostRuntime) {
    for data_type in [DataType::Bool, DataType::Unsigned] {
        for (operator, table) in [
            (Comparison::Equal, &edges::EQUAL),
            (Comparison::NotEqual, &edges::NOT_EQUAL),
            (Comparison::Less, &edges::UNSIGNED_LESS),
            (Comparison::LessOrEqual, &edges::UNSIGNED_LESS_OR_EQUAL),
            (Comparison::Greater, &edges::UNSIGNED_GREATER),
            (
                Comparison::GreaterOrEqual,
                &edges::UNSIGNED_GREATER_OR_EQUAL,
            ),
        ] {
            try_two(&rt, |a, b| operator.apply(data_type, a, b), table);
        }
    }
}
