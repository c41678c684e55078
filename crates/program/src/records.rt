// The records of a program: nodes, variables and procedures.
ghost use Rattle.std.specs.Prelude.{◌≡◌};
ghost use Rattle.program.specs.Program.{present, children};

use words::types::{Arithmetic, Comparison, DataType};

// A node of a program's trees. Nodes, variables and procedures are named by their numbers, as in a file: a tree of boxes
// would ask for memory at every check.
#[derive(Clone, Copy)]
pub enum Node {
    Constant {
        data_type: DataType,
        word: u32,
    },
    Variable {
        variable: u16,
    },
    Minus {
        operand: u16,
    },
    Not {
        operand: u16,
    },
    Arithmetic {
        operator: Arithmetic,
        left: u16,
        right: u16,
    },
    Comparison {
        operator: Comparison,
        left: u16,
        right: u16,
    },
    And {
        left: u16,
        right: u16,
    },
    Or {
        left: u16,
        right: u16,
    },
    Choice {
        condition: u16,
        chosen: u16,
        otherwise: u16,
    },
    Assignment {
        variable: u16,
        value: u16,
    },
    Call {
        procedure: u16,
        first: Option<u16>,
    },
    Argument {
        value: u16,
        next: Option<u16>,
    },
    Release {
        operand: u16,
    },
    Expression {
        value: u16,
    },
    Sequence {
        first: u16,
        second: u16,
    },
    If {
        condition: u16,
        branch: u16,
    },
    IfElse {
        condition: u16,
        branch: u16,
        otherwise: u16,
    },
    While {
        condition: u16,
        body: u16,
    },
    DoWhile {
        condition: u16,
        body: u16,
    },
    Return {
        value: u16,
    },
    ReturnVoid,
    Break,
    Continue,
    Definition {
        variable: u16,
    },
    Output {
        operand: u16,
    },
}

impl Node {
    // The nodes that a node names as its children, in order.
    pub fn children(self) -> [Option<u16>; 3]
        ensures { present result ≡ children self }
    {
        match self {
            Node::Minus { operand: child }
            | Node::Not { operand: child }
            | Node::Assignment { value: child, .. }
            | Node::Release { operand: child }
            | Node::Expression { value: child }
            | Node::Return { value: child }
            | Node::Output { operand: child } => [Some(child), None, None],
            Node::Arithmetic { left, right, .. }
            | Node::Comparison { left, right, .. }
            | Node::And { left, right }
            | Node::Or { left, right } => [Some(left), Some(right), None],
            Node::Choice {
                condition,
                chosen,
                otherwise,
            } => [Some(condition), Some(chosen), Some(otherwise)],
            Node::Sequence { first, second } => [Some(first), Some(second), None],
            Node::If { condition, branch } => [Some(condition), Some(branch), None],
            Node::IfElse {
                condition,
                branch,
                otherwise,
            } => [Some(condition), Some(branch), Some(otherwise)],
            Node::While { condition, body } | Node::DoWhile { condition, body } => [
                Some(condition),
                Some(body),
                None,
            ],
            Node::Call { first, .. } => [first, None, None],
            Node::Argument { value, next } => [Some(value), next, None],
            _ => [None; 3],
        }
    }
}

// Where a variable belongs; locals and parameters to the procedure of a number.
#[derive(Clone, Copy, PartialEq, Eq)]
pub enum Role {
    Global,
    Input,
    Local { procedure: u16 },
    Parameter { procedure: u16 },
}

#[derive(Clone, Copy)]
pub struct Variable {
    pub role: Role,
    pub data_type: DataType,
    pub level: u32,
}

// A procedure, with the number of its first parameter and the node that is its body. One without a result is void.
#[derive(Clone, Copy)]
pub struct Procedure {
    pub result: Option<DataType>,
    pub parameters: u8,
    pub first_parameter: u16,
    pub body: u16,
    pub level: u32,
}
