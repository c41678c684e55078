// What the fields of a record stand for. The numbers of kinds, uses and result types are known here alone. Each gives an
// Option, since the error of a TryFrom would have nothing to add: the row of the record says what is wrong.
ghost use Rattle.std.specs.Prelude.{◌≡◌, true, false};
ghost use Rattle.program.specs.Decode.{node_decoded, variable_decoded, procedure_decoded, absent_or, word_fits, role_decoded, result_decoded, is_statement_kind};

use crate::fields::{NodeFields, ProcedureFields, VariableFields};
use crate::records::{Node, Procedure, Role, Variable};
use words::types::{Arithmetic, Comparison, DataType};

// A node number, or none where the field is absent.
fn optional(field: u16) -> Option<u16>
    ensures { result ≡ absent_or field }
{
    (field != 65535).then_some(field)
}

fn word_fits(data_type: DataType, word: u32) -> bool
    ensures { result ≡ word_fits data_type word }
{
    match data_type {
        DataType::Bool => word < 2,
        DataType::Int | DataType::Unsigned => true,
    }
}

// The node of an expression's record, or of an argument's. A field that the kind does not use is 0.
fn expression(f: NodeFields) -> Option<Node>
    requires { is_statement_kind f.kind ≡ false }
    ensures { result ≡ node_decoded f }
{
    match (f.kind, f.sort, f.a, f.b, f.c, f.word) {
        (1, sort, 0, 0, 0, word) => {
            let data_type = DataType::try_from(sort).ok()?;
            word_fits(data_type, word).then_some(Node::Constant { data_type, word })
        }
        (2, 0, variable, 0, 0, 0) => Some(Node::Variable { variable }),
        (3, 0, operand, 0, 0, 0) => Some(Node::Minus { operand }),
        (4, 0, operand, 0, 0, 0) => Some(Node::Not { operand }),
        (5, sort, left, right, 0, 0) => {
            let operator = Arithmetic::try_from(sort).ok()?;
            Some(Node::Arithmetic {
                operator,
                left,
                right,
            })
        }
        (6, sort, left, right, 0, 0) => {
            let operator = Comparison::try_from(sort).ok()?;
            Some(Node::Comparison {
                operator,
                left,
                right,
            })
        }
        (7, 0, left, right, 0, 0) => Some(Node::And { left, right }),
        (8, 0, left, right, 0, 0) => Some(Node::Or { left, right }),
        (9, 0, condition, chosen, otherwise, 0) => Some(Node::Choice {
            condition,
            chosen,
            otherwise,
        }),
        (10, 0, variable, value, 0, 0) => Some(Node::Assignment { variable, value }),
        (11, 0, procedure, first, 0, 0) => Some(Node::Call {
            procedure,
            first: optional(first),
        }),
        (12, 0, value, next, 0, 0) => Some(Node::Argument {
            value,
            next: optional(next),
        }),
        (13, 0, operand, 0, 0, 0) => Some(Node::Release { operand }),
        _ => None,
    }
}

// The node of a statement's record.
fn statement(f: NodeFields) -> Option<Node>
    requires { is_statement_kind f.kind ≡ true }
    ensures { result ≡ node_decoded f }
{
    match (f.kind, f.sort, f.a, f.b, f.c, f.word) {
        (20, 0, value, 0, 0, 0) => Some(Node::Expression { value }),
        (21, 0, first, second, 0, 0) => Some(Node::Sequence { first, second }),
        (22, 0, condition, branch, 0, 0) => Some(Node::If { condition, branch }),
        (23, 0, condition, branch, otherwise, 0) => Some(Node::IfElse {
            condition,
            branch,
            otherwise,
        }),
        (24, 0, condition, body, 0, 0) => Some(Node::While { condition, body }),
        (25, 0, condition, body, 0, 0) => Some(Node::DoWhile { condition, body }),
        (27, 0, value, 0, 0, 0) => Some(Node::Return { value }),
        (28, 0, 0, 0, 0, 0) => Some(Node::ReturnVoid),
        (29, 0, 0, 0, 0, 0) => Some(Node::Break),
        (30, 0, 0, 0, 0, 0) => Some(Node::Continue),
        (31, 0, variable, 0, 0, 0) => Some(Node::Definition { variable }),
        (32, 0, operand, 0, 0, 0) => Some(Node::Output { operand }),
        _ => None,
    }
}

// The node of a record, or none where its kind, sort, word or an unused field is bad.
pub fn decode_node(f: NodeFields) -> Option<Node>
    ensures { result ≡ node_decoded f }
{
    if is_statement_kind(f.kind) {
        statement(f)
    } else {
        expression(f)
    }
}

// Whether a record of this kind is a statement, whatever its other fields are.
pub fn is_statement_kind(kind: u8) -> bool
    ensures { result ≡ is_statement_kind kind }
{
    matches!(kind, 20..=25 | 27..=32)
}

fn role(number: u8, owner: u16) -> Option<Role>
    ensures { result ≡ role_decoded number owner }
{
    match (number, owner) {
        (0, 65535) => Some(Role::Global),
        (1, 65535) => Some(Role::Input),
        (2, procedure) => Some(Role::Local { procedure }),
        (3, procedure) => Some(Role::Parameter { procedure }),
        _ => None,
    }
}

// The variable of a record, or none where its use, its data type or the owner of a global or an input is bad.
pub fn decode_variable(f: VariableFields) -> Option<Variable>
    ensures { result ≡ variable_decoded f }
{
    let role = role(f.role, f.owner)?;
    let data_type = DataType::try_from(f.data_type).ok()?;
    Some(Variable {
        role,
        data_type,
        level: f.level,
    })
}

// The result type of a number: void is 255.
fn result(number: u8) -> Option<Option<DataType>>
    ensures { result ≡ result_decoded number }
{
    match number {
        255 => Some(None),
        _ => DataType::try_from(number).ok().map(Some),
    }
}

// The procedure of a record, or none where its result type or its spare field is bad.
pub fn decode_procedure(f: ProcedureFields) -> Option<Procedure>
    ensures { result ≡ procedure_decoded f }
{
    let result = result(f.result)?;
    if f.spare != 0 {
        return None;
    }
    let ProcedureFields {
        parameters,
        first_parameter,
        body,
        level,
        ..
    } = f;
    Some(Procedure {
        result,
        parameters,
        first_parameter,
        body,
        level,
    })
}
