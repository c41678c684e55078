// Trials of the machine: files are checked, and the machines made of them are run over both holdings.
use self::files::*;
use self::machines::*;
use self::programs::*;
use holding::interface::Holding;
use holding::open::OpenHolding;
use holding::shares::Counts;
use holding::split::SplitHolding;
use semantics::lines::{LineKind, Outcome};
use semantics::values::Value;
use std::alloc::{AllocError, Global};
use std::process::Abort;
use std::test::Fail;
use words::types::DataType;

mod files;
mod machines;
mod programs;

fn finished(spent: u32, counts: Counts) -> Standing {
    Standing {
        outcome: Outcome::Finished,
        spent,
        counts,
    }
}

// A program runs to its end, stands so there, and has written these lines.
fn try_program<H: Holding + Drop>(
    rt: &impl Abort,
    heap: Global,
    program: Program,
    holding: H,
    lines: &[LineRow],
    end: Standing,
) -> Result<(), Fail> {
    let mut machine = open(heap, program, holding)?;
    run(rt, &mut machine, 2000);
    assert_eq!(rt; Standing::of(&machine), end);
    check_lines(rt, &machine, lines);
    Ok(())
}

fn try_both(
    rt: &impl Abort,
    heap: Global,
    program: Program,
    lines: &[LineRow],
    end: Standing,
) -> Result<(), Fail> {
    try_program(rt, heap, program, OpenHolding::new(), lines, end)?;
    try_program(rt, heap, program, SplitHolding::new(2026), lines, end)
}

// Every expression but calls, on public and held figures: and, or and choice run what they need and no more, and a held
// quotient by zero is 0.
#[test]
fn expressions(rt: HostRuntime) -> Result<(), Fail> {
    let end = finished(73, Counts { puts: 11, ops: 9 });
    try_both(&rt, rt.alloc(), EXPRESSIONS, &EXPRESSIONS_LINES, end)
}

// Every statement but a return with a value: loops that break, continue and end, both branches, and a held definition.
#[test]
fn statements(rt: HostRuntime) -> Result<(), Fail> {
    let end = finished(187, Counts { puts: 3, ops: 0 });
    try_both(&rt, rt.alloc(), STATEMENTS, &STATEMENTS_LINES, end)
}

// Calls within arguments, of procedures with a public result, a held one and none; a local is 0 again at each call.
#[test]
fn calls(rt: HostRuntime) -> Result<(), Fail> {
    let end = finished(118, Counts { puts: 12, ops: 7 });
    try_both(&rt, rt.alloc(), CALLS, &CALLS_LINES, end)
}

// A public quotient by zero ends the run, and nothing is run after that.
#[test]
fn zero_divisor(rt: HostRuntime) -> Result<(), Fail> {
    let mut machine = open(rt.alloc(), ZERO_DIVISOR, OpenHolding::new())?;
    let end = Standing {
        outcome: Outcome::ZeroDivisor,
        spent: 9,
        counts: Counts { puts: 1, ops: 0 },
    };
    for _ in 0..2 {
        run(&rt, &mut machine, 1000);
        assert_eq!(rt; Standing::of(&machine), end);
        check_lines(&rt, &machine, &ZERO_DIVISOR_LINES);
    }
    Ok(())
}

// output p = release of 1019 times minus, on h = 7: all 1024 nodes that a file may have, each the child of the next.
fn tower(heap: Global) -> Result<Vec<NodeRow>, AllocError> {
    let mut nodes = Vec::new(heap);
    nodes.push((CONSTANT, INT, 0, 0, 0, 7))?;
    nodes.push((ASSIGNMENT, 0, 0, 0, 0, 0))?;
    for operand in 1..1020 {
        nodes.push((MINUS, 0, operand, 0, 0, 0))?;
    }
    nodes.push((RELEASE, 0, 1020, 0, 0, 0))?;
    nodes.push((ASSIGNMENT, 0, 1, 1021, 0, 0))?;
    nodes.push((OUTPUT, 0, 1022, 0, 0, 0))?;
    Ok(nodes)
}

// A program that is nested as deep as files allow runs to its end.
#[test]
fn deepest(rt: HostRuntime) -> Result<(), Fail> {
    let nodes = tower(rt.alloc())?;
    let program = Program {
        nodes: &nodes,
        variables: &[(GLOBAL, INT, NONE, 1), (GLOBAL, INT, NONE, 0)],
        procedures: &[(VOID, 0, 0, 1023, 0)],
    };
    let lines = [
        (LineKind::Release, 1021, 1024, DataType::Int, MINUS_7),
        (LineKind::Output, 1023, 1024, DataType::Int, MINUS_7),
    ];
    let end = finished(1024, Counts { puts: 2, ops: 1019 });
    try_both(&rt, rt.alloc(), program, &lines, end)
}

// The lines of the first 256 rounds of the loop that counts.
fn counting_lines(heap: Global) -> Result<Vec<LineRow>, AllocError> {
    let mut lines = Vec::new(heap);
    for i in 1..257u32 {
        lines.push((LineKind::Output, 9, 1 + 12 * i, DataType::Int, i))?;
    }
    Ok(lines)
}

// 256 lines are written, and where the next would be the run ends: in round 257, whose last node begins in step 3085.
// The held sum is then that of 0 to 256.
#[test]
fn last_line(rt: HostRuntime) -> Result<(), Fail> {
    let lines = counting_lines(rt.alloc())?;
    let mut machine = open(rt.alloc(), COUNTING, SplitHolding::new(9))?;
    run(&rt, &mut machine, 3084);
    check_lines(&rt, &machine, &lines);
    let counts = Counts {
        puts: 258,
        ops: 257,
    };
    let before = Standing {
        outcome: Outcome::More,
        spent: 3084,
        counts,
    };
    assert_eq!(rt; Standing::of(&machine), before);
    let end = Standing {
        outcome: Outcome::LinesFull,
        spent: 3085,
        counts,
    };
    for steps in [1, 1000] {
        run(&rt, &mut machine, steps);
        check_lines(&rt, &machine, &lines);
        assert_eq!(rt; Standing::of(&machine), end);
    }
    let Value::Held(sum) = machine.store.read(1) else {
        return Err(Fail::new("a plain sum"));
    };
    assert_eq!(rt; machine.store.holding.take_out(sum), 32896);
    Ok(())
}

fn try_single_steps<H: Holding + Drop>(
    rt: &impl Abort,
    heap: Global,
    program: Program,
    one: H,
    other: H,
) -> Result<(), Fail> {
    let mut whole = open(heap, program, one)?;
    let mut single = open(heap, program, other)?;
    run(rt, &mut whole, 4000);
    for _ in 0..4000 {
        run(rt, &mut single, 1);
    }
    check_alike(rt, &whole, &single);
    Ok(())
}

// One run of many steps and as many runs of one step write the same lines, and stand alike.
#[test]
fn single_steps(rt: HostRuntime) -> Result<(), Fail> {
    let heap = rt.alloc();
    try_single_steps(&rt, heap, COUNTING, OpenHolding::new(), OpenHolding::new())?;
    try_single_steps(&rt, heap, CALLS, SplitHolding::new(5), SplitHolding::new(5))?;
    try_single_steps(
        &rt,
        heap,
        EXPRESSIONS,
        OpenHolding::new(),
        OpenHolding::new(),
    )
}
