// The class of a node, from the classes of its children.
ghost use Rattle.std.specs.Prelude.{◌≡◌};
ghost use Rattle.typing.specs.Environment.{variable_at, procedure_at};
ghost use Rattle.typing.specs.Classes.{class_of_variable, class_of_call, joint_of, class_of};
ghost use Rattle.typing.specs.declared.classes.Class.TheVariants.{Value, Statement};
ghost use Rattle.tables.specs.View.{view};

use crate::exits::{BREAKING, CONTINUING, RETURNING, around, either, in_sequence};
use crate::site::Site;
use levels::Levels;
use program::records::Node;
use tables::lookups::FALLING;
use typing::classes::{Class, Exits};
use words::types::DataType;

fn value(data_type: Option<DataType>, level: u32) -> Class
    ensures { result ≡ Value data_type level }
{
    Class::Value { data_type, level }
}

fn statement(exits: Exits) -> Class
    ensures { result ≡ Statement exits }
{
    Class::Statement { exits }
}

impl<L: Levels> Site<'_, L> {
    fn variable_value(&self, variable: u16) -> Class
        ensures { result ≡ class_of_variable (variable_at (view self.now.tables.now) variable) }
    {
        let variable = variable as usize;
        value(
            self.tables.variable_type(variable),
            self.tables.variable_level(variable),
        )
    }

    fn call_value(&self, procedure: u16) -> Class
        ensures { result ≡ class_of_call (procedure_at (view self.now.tables.now) procedure) }
    {
        value(
            self.tables.result_type(procedure),
            self.tables.result_level(procedure),
        )
    }

    fn joint(&self, one: u16, other: u16) -> u32
        ensures { result ≡ joint_of L.Levels.rules (view self.now.tables.now) one other }
    {
        self.levels
            .joint(self.tables.level(one), self.tables.level(other))
    }

    pub(crate) fn class_of(&self, node: Node) -> Class
        ensures { result ≡ class_of L.Levels.rules (view self.now.tables.now) node }
    {
        let tables = self.tables;
        match node {
            Node::Constant { data_type, .. } => value(Some(data_type), 0),
            Node::Variable { variable } | Node::Assignment { variable, .. } => self.variable_value(
                variable,
            ),
            Node::Minus { operand } => value(Some(DataType::Int), tables.level(operand)),
            Node::Not { operand } => value(Some(DataType::Bool), tables.level(operand)),
            Node::Arithmetic { left, right, .. } => value(
                tables.data_type(left),
                self.joint(left, right),
            ),
            Node::Comparison { left, right, .. }
            | Node::And { left, right }
            | Node::Or { left, right } => value(Some(DataType::Bool), self.joint(left, right)),
            Node::Choice {
                chosen,
                otherwise,
                ..
            } => value(tables.data_type(chosen), self.joint(chosen, otherwise)),
            Node::Call { procedure, .. } => self.call_value(procedure),
            Node::Argument { .. } => Class::Argument,
            Node::Release { operand } => value(tables.data_type(operand), 0),
            Node::Sequence { first, second } => statement(in_sequence(
                tables.exits(first),
                tables.exits(second),
            )),
            Node::If { branch, .. } => statement(either(tables.exits(branch), FALLING)),
            Node::IfElse {
                branch,
                otherwise,
                ..
            } => statement(either(tables.exits(branch), tables.exits(otherwise))),
            Node::While { body, .. } | Node::DoWhile { body, .. } => statement(around(tables.exits(
                body,
            ))),
            Node::Return { .. } | Node::ReturnVoid => statement(RETURNING),
            Node::Break => statement(BREAKING),
            Node::Continue => statement(CONTINUING),
            Node::Expression { .. } | Node::Definition { .. } | Node::Output { .. } => statement(
                FALLING,
            ),
        }
    }
}
