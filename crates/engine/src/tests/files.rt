// Programs as rows of numbers, and their files. The numbers are those of the format, written down here again so that the tests
// do not rest on the code's own encoding.
use std::alloc::{AllocError, Global};
use std::test::Fail;

// The kinds of nodes.
pub const CONSTANT: u8 = 1;

pub const VARIABLE: u8 = 2;

pub const MINUS: u8 = 3;

pub const NOT: u8 = 4;

pub const ARITHMETIC: u8 = 5;

pub const COMPARISON: u8 = 6;

pub const AND: u8 = 7;

pub const OR: u8 = 8;

pub const CHOICE: u8 = 9;

pub const ASSIGNMENT: u8 = 10;

pub const CALL: u8 = 11;

pub const ARGUMENT: u8 = 12;

pub const RELEASE: u8 = 13;

pub const EXPRESSION: u8 = 20;

pub const SEQUENCE: u8 = 21;

pub const IF: u8 = 22;

pub const IF_ELSE: u8 = 23;

pub const WHILE: u8 = 24;

pub const DO_WHILE: u8 = 25;

pub const RETURN: u8 = 27;

pub const RETURN_VOID: u8 = 28;

pub const BREAK: u8 = 29;

pub const CONTINUE: u8 = 30;

pub const DEFINITION: u8 = 31;

pub const OUTPUT: u8 = 32;

// The sorts of arithmetic and of comparisons.
pub const ADD: u8 = 0;

pub const SUBTRACT: u8 = 1;

pub const MULTIPLY: u8 = 2;

pub const DIVIDE: u8 = 3;

pub const REMAINDER: u8 = 4;

pub const EQUAL: u8 = 0;

pub const NOT_EQUAL: u8 = 1;

pub const LESS: u8 = 2;

pub const LESS_OR_EQUAL: u8 = 3;

pub const GREATER: u8 = 4;

pub const GREATER_OR_EQUAL: u8 = 5;

// Data types, and the result of a procedure that has none.
pub const BOOL: u8 = 0;

pub const INT: u8 = 1;

pub const UNSIGNED: u8 = 2;

pub const VOID: u8 = 255;

// The uses of variables.
pub const GLOBAL: u8 = 0;

pub const LOCAL: u8 = 2;

pub const PARAMETER: u8 = 3;

// No owner, and no argument.
pub const NONE: u16 = 65535;

// A node: its kind, its sort, the fields a, b and c, and its word.
pub type NodeRow = (u8, u8, u16, u16, u16, u32);

// A variable: its use, data type, owner and level.
pub type VariableRow = (u8, u8, u16, u32);

// A procedure: its result type, parameter count, first parameter, body and result level.
pub type ProcedureRow = (u8, u8, u16, u16, u32);

#[derive(Clone, Copy)]
pub struct Program<'a> {
    pub nodes: &'a [NodeRow],
    pub variables: &'a [VariableRow],
    pub procedures: &'a [ProcedureRow],
}

// A function for each sort of row, since each has a layout of its own.
fn push_node(file: &mut Vec<u8>, row: &NodeRow) -> Result<(), AllocError> {
    let (kind, sort, a, b, c, word) = *row;
    file.extend_from_slice(&[kind, sort])?;
    file.extend_from_slice(&a.to_be_bytes())?;
    file.extend_from_slice(&b.to_be_bytes())?;
    file.extend_from_slice(&c.to_be_bytes())?;
    file.extend_from_slice(&word.to_be_bytes())
}

fn push_variable(file: &mut Vec<u8>, row: &VariableRow) -> Result<(), AllocError> {
    let (role, data_type, owner, level) = *row;
    file.extend_from_slice(&[role, data_type])?;
    file.extend_from_slice(&owner.to_be_bytes())?;
    file.extend_from_slice(&level.to_be_bytes())
}

fn push_procedure(file: &mut Vec<u8>, row: &ProcedureRow) -> Result<(), AllocError> {
    let (result, parameters, first, body, level) = *row;
    file.extend_from_slice(&[result, parameters])?;
    file.extend_from_slice(&first.to_be_bytes())?;
    file.extend_from_slice(&body.to_be_bytes())?;
    file.extend_from_slice(&[0, 0])?;
    file.extend_from_slice(&level.to_be_bytes())
}

// Where the next record of a file is to stand.
fn place(file: &Vec<u8>) -> Result<[u8; 4], Fail> {
    Ok(u32::try_from(file.len())?.to_be_bytes())
}

pub(crate) fn file_of(heap: Global, program: Program) -> Result<Vec<u8>, Fail> {
    let mut file = Vec::new(heap);
    for row in program.nodes {
        push_node(&mut file, row)?;
    }
    let variables = place(&file)?;
    for row in program.variables {
        push_variable(&mut file, row)?;
    }
    let procedures = place(&file)?;
    for row in program.procedures {
        push_procedure(&mut file, row)?;
    }
    file.extend_from_slice(&variables)?;
    file.extend_from_slice(&procedures)?;
    file.extend_from_slice(b"SCPT")?;
    Ok(file)
}
