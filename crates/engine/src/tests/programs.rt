// The programs that are run, and the lines that they write.
use super::files::*;
use super::machines::LineRow;
use semantics::lines::LineKind;
use words::types::DataType;

const MINUS_1: u32 = 0u32.wrapping_sub(1);

const MINUS_3: u32 = 0u32.wrapping_sub(3);

const MINUS_6: u32 = 0u32.wrapping_sub(6);

pub const MINUS_7: u32 = 0u32.wrapping_sub(7);

const MINUS_12: u32 = 0u32.wrapping_sub(12);

// Expressions of a held global h and a public one p, both 0 at first.
pub const EXPRESSIONS: Program<'static> = Program {
    nodes: &[
        // 0: h = -7
        (CONSTANT, INT, 0, 0, 0, 7),
        (MINUS, 0, 0, 0, 0, 0),
        (ASSIGNMENT, 0, 0, 1, 0, 0),
        (EXPRESSION, 0, 2, 0, 0, 0),
        // 4: output release (h / 2)
        (VARIABLE, 0, 0, 0, 0, 0),
        (CONSTANT, INT, 0, 0, 0, 2),
        (ARITHMETIC, DIVIDE, 4, 5, 0, 0),
        (RELEASE, 0, 6, 0, 0, 0),
        (OUTPUT, 0, 7, 0, 0, 0),
        (SEQUENCE, 0, 3, 8, 0, 0),
        // 10: output release (-(h / 0) - 1): a held quotient by zero is 0
        (VARIABLE, 0, 0, 0, 0, 0),
        (CONSTANT, INT, 0, 0, 0, 0),
        (ARITHMETIC, DIVIDE, 10, 11, 0, 0),
        (MINUS, 0, 12, 0, 0, 0),
        (CONSTANT, INT, 0, 0, 0, 1),
        (ARITHMETIC, SUBTRACT, 13, 14, 0, 0),
        (RELEASE, 0, 15, 0, 0, 0),
        (OUTPUT, 0, 16, 0, 0, 0),
        (SEQUENCE, 0, 9, 17, 0, 0),
        // 19: output (p = (5 if true, else 1 / 0)) * -3 % 4
        (CONSTANT, BOOL, 0, 0, 0, 1),
        (CONSTANT, INT, 0, 0, 0, 5),
        (CONSTANT, INT, 0, 0, 0, 1),
        (CONSTANT, INT, 0, 0, 0, 0),
        (ARITHMETIC, DIVIDE, 21, 22, 0, 0),
        (CHOICE, 0, 19, 20, 23, 0),
        (ASSIGNMENT, 0, 1, 24, 0, 0),
        (CONSTANT, INT, 0, 0, 0, MINUS_3),
        (ARITHMETIC, MULTIPLY, 25, 26, 0, 0),
        (CONSTANT, INT, 0, 0, 0, 4),
        (ARITHMETIC, REMAINDER, 27, 28, 0, 0),
        (OUTPUT, 0, 29, 0, 0, 0),
        (SEQUENCE, 0, 18, 30, 0, 0),
        // 32: output not (4294967295 > 1), of unsigneds
        (CONSTANT, UNSIGNED, 0, 0, 0, MINUS_1),
        (CONSTANT, UNSIGNED, 0, 0, 0, 1),
        (COMPARISON, GREATER, 32, 33, 0, 0),
        (NOT, 0, 34, 0, 0, 0),
        (OUTPUT, 0, 35, 0, 0, 0),
        (SEQUENCE, 0, 31, 36, 0, 0),
        // 38: output (p == 5) or (1 / 0 < 1): the second operand does not run
        (VARIABLE, 0, 1, 0, 0, 0),
        (CONSTANT, INT, 0, 0, 0, 5),
        (COMPARISON, EQUAL, 38, 39, 0, 0),
        (CONSTANT, INT, 0, 0, 0, 1),
        (CONSTANT, INT, 0, 0, 0, 0),
        (ARITHMETIC, DIVIDE, 41, 42, 0, 0),
        (CONSTANT, INT, 0, 0, 0, 1),
        (COMPARISON, LESS, 43, 44, 0, 0),
        (OR, 0, 40, 45, 0, 0),
        (OUTPUT, 0, 46, 0, 0, 0),
        (SEQUENCE, 0, 37, 47, 0, 0),
        // 49: output release (not ((p != 5) and (h < 0))): nor does this one
        (VARIABLE, 0, 1, 0, 0, 0),
        (CONSTANT, INT, 0, 0, 0, 5),
        (COMPARISON, NOT_EQUAL, 49, 50, 0, 0),
        (VARIABLE, 0, 0, 0, 0, 0),
        (CONSTANT, INT, 0, 0, 0, 0),
        (COMPARISON, LESS, 52, 53, 0, 0),
        (AND, 0, 51, 54, 0, 0),
        (NOT, 0, 55, 0, 0, 0),
        (RELEASE, 0, 56, 0, 0, 0),
        (OUTPUT, 0, 57, 0, 0, 0),
        (SEQUENCE, 0, 48, 58, 0, 0),
        // 60: output release ((h <= -7) and false)
        (VARIABLE, 0, 0, 0, 0, 0),
        (CONSTANT, INT, 0, 0, 0, MINUS_7),
        (COMPARISON, LESS_OR_EQUAL, 60, 61, 0, 0),
        (CONSTANT, BOOL, 0, 0, 0, 0),
        (AND, 0, 62, 63, 0, 0),
        (RELEASE, 0, 64, 0, 0, 0),
        (OUTPUT, 0, 65, 0, 0, 0),
        (SEQUENCE, 0, 59, 66, 0, 0),
        // 68: output release (false or (h >= 0))
        (CONSTANT, BOOL, 0, 0, 0, 0),
        (VARIABLE, 0, 0, 0, 0, 0),
        (CONSTANT, INT, 0, 0, 0, 0),
        (COMPARISON, GREATER_OR_EQUAL, 69, 70, 0, 0),
        (OR, 0, 68, 71, 0, 0),
        (RELEASE, 0, 72, 0, 0, 0),
        (OUTPUT, 0, 73, 0, 0, 0),
        (SEQUENCE, 0, 67, 74, 0, 0),
        // 76: output release (h if false, else p + 1)
        (CONSTANT, BOOL, 0, 0, 0, 0),
        (VARIABLE, 0, 0, 0, 0, 0),
        (VARIABLE, 0, 1, 0, 0, 0),
        (CONSTANT, INT, 0, 0, 0, 1),
        (ARITHMETIC, ADD, 78, 79, 0, 0),
        (CHOICE, 0, 76, 77, 80, 0),
        (RELEASE, 0, 81, 0, 0, 0),
        (OUTPUT, 0, 82, 0, 0, 0),
        (SEQUENCE, 0, 75, 83, 0, 0),
    ],
    variables: &[(GLOBAL, INT, NONE, 1), (GLOBAL, INT, NONE, 0)],
    procedures: &[(VOID, 0, 0, 84, 0)],
};

pub const EXPRESSIONS_LINES: [LineRow; 15] = [
    (LineKind::Release, 7, 18, DataType::Int, MINUS_3),
    (LineKind::Output, 8, 18, DataType::Int, MINUS_3),
    (LineKind::Release, 16, 26, DataType::Int, MINUS_1),
    (LineKind::Output, 17, 26, DataType::Int, MINUS_1),
    (LineKind::Output, 30, 35, DataType::Int, MINUS_3),
    (LineKind::Output, 36, 40, DataType::Bool, 0),
    (LineKind::Output, 47, 45, DataType::Bool, 1),
    (LineKind::Release, 57, 52, DataType::Bool, 1),
    (LineKind::Output, 58, 52, DataType::Bool, 1),
    (LineKind::Release, 65, 59, DataType::Bool, 0),
    (LineKind::Output, 66, 59, DataType::Bool, 0),
    (LineKind::Release, 73, 66, DataType::Bool, 0),
    (LineKind::Output, 74, 66, DataType::Bool, 0),
    (LineKind::Release, 82, 73, DataType::Int, 6),
    (LineKind::Output, 83, 73, DataType::Int, 6),
];

// Statements, with a public local i and a held local s.
pub const STATEMENTS: Program<'static> = Program {
    nodes: &[
        // 0: the body of the loop: i = i + 1; if i % 2 == 0, continue; if i > 5, break; output i
        (VARIABLE, 0, 0, 0, 0, 0),
        (CONSTANT, INT, 0, 0, 0, 1),
        (ARITHMETIC, ADD, 0, 1, 0, 0),
        (ASSIGNMENT, 0, 0, 2, 0, 0),
        (EXPRESSION, 0, 3, 0, 0, 0),
        (VARIABLE, 0, 0, 0, 0, 0),
        (CONSTANT, INT, 0, 0, 0, 2),
        (ARITHMETIC, REMAINDER, 5, 6, 0, 0),
        (CONSTANT, INT, 0, 0, 0, 0),
        (COMPARISON, EQUAL, 7, 8, 0, 0),
        (CONTINUE, 0, 0, 0, 0, 0),
        (IF, 0, 9, 10, 0, 0),
        (SEQUENCE, 0, 4, 11, 0, 0),
        (VARIABLE, 0, 0, 0, 0, 0),
        (CONSTANT, INT, 0, 0, 0, 5),
        (COMPARISON, GREATER, 13, 14, 0, 0),
        (BREAK, 0, 0, 0, 0, 0),
        (IF, 0, 15, 16, 0, 0),
        (SEQUENCE, 0, 12, 17, 0, 0),
        (VARIABLE, 0, 0, 0, 0, 0),
        (OUTPUT, 0, 19, 0, 0, 0),
        (SEQUENCE, 0, 18, 20, 0, 0),
        // 22: the loop: while true
        (CONSTANT, BOOL, 0, 0, 0, 1),
        (WHILE, 0, 22, 21, 0, 0),
        // 24: do: if i == 6, output i, else s = i; i = i - 1; while i > 5
        (VARIABLE, 0, 0, 0, 0, 0),
        (CONSTANT, INT, 0, 0, 0, 6),
        (COMPARISON, EQUAL, 24, 25, 0, 0),
        (VARIABLE, 0, 0, 0, 0, 0),
        (OUTPUT, 0, 27, 0, 0, 0),
        (VARIABLE, 0, 0, 0, 0, 0),
        (ASSIGNMENT, 0, 1, 29, 0, 0),
        (EXPRESSION, 0, 30, 0, 0, 0),
        (IF_ELSE, 0, 26, 28, 31, 0),
        (VARIABLE, 0, 0, 0, 0, 0),
        (CONSTANT, INT, 0, 0, 0, 1),
        (ARITHMETIC, SUBTRACT, 33, 34, 0, 0),
        (ASSIGNMENT, 0, 0, 35, 0, 0),
        (EXPRESSION, 0, 36, 0, 0, 0),
        (SEQUENCE, 0, 32, 37, 0, 0),
        (VARIABLE, 0, 0, 0, 0, 0),
        (CONSTANT, INT, 0, 0, 0, 5),
        (COMPARISON, GREATER, 39, 40, 0, 0),
        (DO_WHILE, 0, 41, 38, 0, 0),
        (SEQUENCE, 0, 23, 42, 0, 0),
        // 44: while i > 5, continue: the body is not met
        (VARIABLE, 0, 0, 0, 0, 0),
        (CONSTANT, INT, 0, 0, 0, 5),
        (COMPARISON, GREATER, 44, 45, 0, 0),
        (CONTINUE, 0, 0, 0, 0, 0),
        (WHILE, 0, 46, 47, 0, 0),
        (SEQUENCE, 0, 43, 48, 0, 0),
        // 50: output release s; a definition of s; output release s
        (VARIABLE, 0, 1, 0, 0, 0),
        (RELEASE, 0, 50, 0, 0, 0),
        (OUTPUT, 0, 51, 0, 0, 0),
        (SEQUENCE, 0, 49, 52, 0, 0),
        (DEFINITION, 0, 1, 0, 0, 0),
        (SEQUENCE, 0, 53, 54, 0, 0),
        (VARIABLE, 0, 1, 0, 0, 0),
        (RELEASE, 0, 56, 0, 0, 0),
        (OUTPUT, 0, 57, 0, 0, 0),
        (SEQUENCE, 0, 55, 58, 0, 0),
        // 60: if i == 5, return; output 9, which is not met
        (VARIABLE, 0, 0, 0, 0, 0),
        (CONSTANT, INT, 0, 0, 0, 5),
        (COMPARISON, EQUAL, 60, 61, 0, 0),
        (RETURN_VOID, 0, 0, 0, 0, 0),
        (IF, 0, 62, 63, 0, 0),
        (SEQUENCE, 0, 59, 64, 0, 0),
        (CONSTANT, INT, 0, 0, 0, 9),
        (OUTPUT, 0, 66, 0, 0, 0),
        (SEQUENCE, 0, 65, 67, 0, 0),
    ],
    variables: &[(LOCAL, INT, 0, 0), (LOCAL, INT, 0, 1)],
    procedures: &[(VOID, 0, 0, 68, 0)],
};

pub const STATEMENTS_LINES: [LineRow; 8] = [
    (LineKind::Output, 20, 29, DataType::Int, 1),
    (LineKind::Output, 20, 66, DataType::Int, 3),
    (LineKind::Output, 20, 103, DataType::Int, 5),
    (LineKind::Output, 28, 163, DataType::Int, 6),
    (LineKind::Release, 51, 178, DataType::Int, 7),
    (LineKind::Output, 52, 178, DataType::Int, 7),
    (LineKind::Release, 57, 182, DataType::Int, 0),
    (LineKind::Output, 58, 182, DataType::Int, 0),
];

// Calls: less has a public result, tell none, and scaled a held one, with a held parameter x and a held local t. A global h is
// held too.
pub const CALLS: Program<'static> = Program {
    nodes: &[
        // 0: less(a, b): return a - b
        (VARIABLE, 0, 0, 0, 0, 0),
        (VARIABLE, 0, 1, 0, 0, 0),
        (ARITHMETIC, SUBTRACT, 0, 1, 0, 0),
        (RETURN, 0, 2, 0, 0, 0),
        // 4: scaled(x, y): t = t + x * y; if y > 3, return 1; return t
        (VARIABLE, 0, 4, 0, 0, 0),
        (VARIABLE, 0, 2, 0, 0, 0),
        (VARIABLE, 0, 3, 0, 0, 0),
        (ARITHMETIC, MULTIPLY, 5, 6, 0, 0),
        (ARITHMETIC, ADD, 4, 7, 0, 0),
        (ASSIGNMENT, 0, 4, 8, 0, 0),
        (EXPRESSION, 0, 9, 0, 0, 0),
        (VARIABLE, 0, 3, 0, 0, 0),
        (CONSTANT, INT, 0, 0, 0, 3),
        (COMPARISON, GREATER, 11, 12, 0, 0),
        (CONSTANT, INT, 0, 0, 0, 1),
        (RETURN, 0, 14, 0, 0, 0),
        (IF, 0, 13, 15, 0, 0),
        (SEQUENCE, 0, 10, 16, 0, 0),
        (VARIABLE, 0, 4, 0, 0, 0),
        (RETURN, 0, 18, 0, 0, 0),
        (SEQUENCE, 0, 17, 19, 0, 0),
        // 21: tell(v): if v < 0, return; output v
        (VARIABLE, 0, 5, 0, 0, 0),
        (CONSTANT, INT, 0, 0, 0, 0),
        (COMPARISON, LESS, 21, 22, 0, 0),
        (RETURN_VOID, 0, 0, 0, 0, 0),
        (IF, 0, 23, 24, 0, 0),
        (VARIABLE, 0, 5, 0, 0, 0),
        (OUTPUT, 0, 26, 0, 0, 0),
        (SEQUENCE, 0, 25, 27, 0, 0),
        // 29: tell(less(9, less(5, 1)))
        (CONSTANT, INT, 0, 0, 0, 5),
        (CONSTANT, INT, 0, 0, 0, 1),
        (ARGUMENT, 0, 30, NONE, 0, 0),
        (ARGUMENT, 0, 29, 31, 0, 0),
        (CALL, 0, 0, 32, 0, 0),
        (CONSTANT, INT, 0, 0, 0, 9),
        (ARGUMENT, 0, 33, NONE, 0, 0),
        (ARGUMENT, 0, 34, 35, 0, 0),
        (CALL, 0, 0, 36, 0, 0),
        (ARGUMENT, 0, 37, NONE, 0, 0),
        (CALL, 0, 2, 38, 0, 0),
        (EXPRESSION, 0, 39, 0, 0, 0),
        // 41: tell(-1)
        (CONSTANT, INT, 0, 0, 0, 1),
        (MINUS, 0, 41, 0, 0, 0),
        (ARGUMENT, 0, 42, NONE, 0, 0),
        (CALL, 0, 2, 43, 0, 0),
        (EXPRESSION, 0, 44, 0, 0, 0),
        (SEQUENCE, 0, 40, 45, 0, 0),
        // 47: output release scaled(-6, less(3, 1))
        (CONSTANT, INT, 0, 0, 0, 3),
        (CONSTANT, INT, 0, 0, 0, 1),
        (ARGUMENT, 0, 48, NONE, 0, 0),
        (ARGUMENT, 0, 47, 49, 0, 0),
        (CALL, 0, 0, 50, 0, 0),
        (CONSTANT, INT, 0, 0, 0, MINUS_6),
        (ARGUMENT, 0, 51, NONE, 0, 0),
        (ARGUMENT, 0, 52, 53, 0, 0),
        (CALL, 0, 1, 54, 0, 0),
        (RELEASE, 0, 55, 0, 0, 0),
        (OUTPUT, 0, 56, 0, 0, 0),
        (SEQUENCE, 0, 46, 57, 0, 0),
        // 59: h = scaled(scaled(h + 2, 4), 3); output release h
        (VARIABLE, 0, 6, 0, 0, 0),
        (CONSTANT, INT, 0, 0, 0, 2),
        (ARITHMETIC, ADD, 59, 60, 0, 0),
        (CONSTANT, INT, 0, 0, 0, 4),
        (ARGUMENT, 0, 62, NONE, 0, 0),
        (ARGUMENT, 0, 61, 63, 0, 0),
        (CALL, 0, 1, 64, 0, 0),
        (CONSTANT, INT, 0, 0, 0, 3),
        (ARGUMENT, 0, 66, NONE, 0, 0),
        (ARGUMENT, 0, 65, 67, 0, 0),
        (CALL, 0, 1, 68, 0, 0),
        (ASSIGNMENT, 0, 6, 69, 0, 0),
        (EXPRESSION, 0, 70, 0, 0, 0),
        (SEQUENCE, 0, 58, 71, 0, 0),
        (VARIABLE, 0, 6, 0, 0, 0),
        (RELEASE, 0, 73, 0, 0, 0),
        (OUTPUT, 0, 74, 0, 0, 0),
        (SEQUENCE, 0, 72, 75, 0, 0),
    ],
    variables: &[
        (PARAMETER, INT, 0, 0),
        (PARAMETER, INT, 0, 0),
        (PARAMETER, INT, 1, 1),
        (PARAMETER, INT, 1, 0),
        (LOCAL, INT, 1, 1),
        (PARAMETER, INT, 2, 0),
        (GLOBAL, INT, NONE, 1),
    ],
    procedures: &[
        (INT, 2, 0, 3, 0),
        (INT, 2, 2, 20, 1),
        (VOID, 1, 5, 28, 0),
        (VOID, 0, 0, 76, 0),
    ],
};

pub const CALLS_LINES: [LineRow; 5] = [
    (LineKind::Output, 27, 31, DataType::Int, 5),
    (LineKind::Release, 56, 72, DataType::Int, MINUS_12),
    (LineKind::Output, 57, 72, DataType::Int, MINUS_12),
    (LineKind::Release, 74, 118, DataType::Int, 3),
    (LineKind::Output, 75, 118, DataType::Int, 3),
];

// A public quotient by zero, for a held cell h.
pub const ZERO_DIVISOR: Program<'static> = Program {
    nodes: &[
        // 0: output 8; h = 1 / 0; output 9, which is not met
        (CONSTANT, INT, 0, 0, 0, 8),
        (OUTPUT, 0, 0, 0, 0, 0),
        (CONSTANT, INT, 0, 0, 0, 1),
        (CONSTANT, INT, 0, 0, 0, 0),
        (ARITHMETIC, DIVIDE, 2, 3, 0, 0),
        (ASSIGNMENT, 0, 0, 4, 0, 0),
        (EXPRESSION, 0, 5, 0, 0, 0),
        (SEQUENCE, 0, 1, 6, 0, 0),
        (CONSTANT, INT, 0, 0, 0, 9),
        (OUTPUT, 0, 8, 0, 0, 0),
        (SEQUENCE, 0, 7, 9, 0, 0),
    ],
    variables: &[(GLOBAL, INT, NONE, 1)],
    procedures: &[(VOID, 0, 0, 10, 0)],
};

pub const ZERO_DIVISOR_LINES: [LineRow; 1] = [(LineKind::Output, 1, 4, DataType::Int, 8)];

// A loop without an end that outputs a public i, and sums it up in a held h.
pub const COUNTING: Program<'static> = Program {
    nodes: &[
        // 0: the body of the loop: h = h + i; output i = i + 1
        (VARIABLE, 0, 1, 0, 0, 0),
        (VARIABLE, 0, 0, 0, 0, 0),
        (ARITHMETIC, ADD, 0, 1, 0, 0),
        (ASSIGNMENT, 0, 1, 2, 0, 0),
        (EXPRESSION, 0, 3, 0, 0, 0),
        (VARIABLE, 0, 0, 0, 0, 0),
        (CONSTANT, INT, 0, 0, 0, 1),
        (ARITHMETIC, ADD, 5, 6, 0, 0),
        (ASSIGNMENT, 0, 0, 7, 0, 0),
        (OUTPUT, 0, 8, 0, 0, 0),
        (SEQUENCE, 0, 4, 9, 0, 0),
        // 11: the loop: while true
        (CONSTANT, BOOL, 0, 0, 0, 1),
        (WHILE, 0, 11, 10, 0, 0),
    ],
    variables: &[(GLOBAL, INT, NONE, 0), (GLOBAL, INT, NONE, 1)],
    procedures: &[(VOID, 0, 0, 12, 0)],
};
