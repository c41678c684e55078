// Trials of the two holdings: an operator on words put in, once taken out, gives the word of the plain operator.
use crate::edges::{DATA_TYPES, EDGES};
use holding::interface::Holding;
use holding::open::OpenHolding;
use holding::shares::Counts;
use holding::split::SplitHolding;
use std::process::Abort;
use words::operators;
use words::types::{Arithmetic, Comparison, DataType};

const ARITHMETIC: [Arithmetic; 5] = [
    Arithmetic::Add,
    Arithmetic::Subtract,
    Arithmetic::Multiply,
    Arithmetic::Divide,
    Arithmetic::Remainder,
];

const COMPARISONS: [Comparison; 6] = [
    Comparison::Equal,
    Comparison::NotEqual,
    Comparison::Less,
    Comparison::LessOrEqual,
    Comparison::Greater,
    Comparison::GreaterOrEqual,
];

// The operators that have a data type, on two words.
fn try_typed<H: Holding>(rt: &impl Abort, holding: &mut H, data_type: DataType, a: u32, b: u32) {
    let x = holding.put_in(a);
    let y = holding.put_in(b);
    for operator in ARITHMETIC {
        let z = holding.arithmetic(operator, data_type, x, y);
        assert_eq!(rt; holding.take_out(z), operator.apply_held(data_type, a, b));
    }
    for operator in COMPARISONS {
        let z = holding.compare(operator, data_type, x, y);
        assert_eq!(rt; holding.take_out(z), operator.apply(data_type, a, b));
    }
}

// The operators that have none.
fn try_untyped<H: Holding>(rt: &impl Abort, holding: &mut H, a: u32, b: u32) {
    let x = holding.put_in(a);
    let y = holding.put_in(b);
    let minus = holding.minus(x);
    let not = holding.not(x);
    let and = holding.and(x, y);
    let or = holding.or(x, y);
    assert_eq!(rt; holding.take_out(minus), operators::minus(a));
    assert_eq!(rt; holding.take_out(not), operators::not(a));
    assert_eq!(rt; holding.take_out(and), operators::and(a, b));
    assert_eq!(rt; holding.take_out(or), operators::or(a, b));
}

// Every operator on every two edges: 49 times 8 words put in, and 49 times 37 operators done.
fn try_edges<H: Holding>(rt: &impl Abort, holding: &mut H) {
    for a in EDGES {
        for b in EDGES {
            try_untyped(rt, holding, a, b);
            for data_type in DATA_TYPES {
                try_typed(rt, holding, data_type, a, b);
            }
        }
    }
    assert_eq!(rt;
        holding.tally(),
        Counts {
            puts: 392,
            ops: 1813,
        }
    );
}

#[test]
fn open_holding(rt: HostRuntime) {
    try_edges(&rt, &mut OpenHolding::new());
}

#[test]
fn split_holding(rt: HostRuntime) {
    try_edges(&rt, &mut SplitHolding::new(2026));
}

#[test]
fn open_shares(rt: HostRuntime) {
    let shares = OpenHolding::new().put_in(7);
    assert_eq!(rt; (shares.first, shares.second, shares.third), (7, 0, 0));
}

#[test]
fn split_shares(rt: HostRuntime) {
    let shares = SplitHolding::new(0).put_in(7);
    assert_eq!(rt; (shares.first, shares.second), (1013904223, 1196435762));
    assert_eq!(rt; shares.third, 2084627318);
}
