// The records of the tables by number, and what is known of each.
ghost use Rattle.std.specs.Prelude.{◌≡◌, option_map};
ghost use Rattle.typing.specs.Environment.{variable_at, procedure_at, node_at, type_of, level_of, exits_of};
ghost use Rattle.typing.specs.Rows.{variable_type, variable_level, result_of, result_level};
ghost use Rattle.tables.specs.View.{view};

use crate::tables::Tables;
use program::records::{Procedure, Variable};
use typing::classes::{Class, Exits, TypedNode};
use words::types::DataType;

pub const FALLING: Exits = Exits {
    falls: true,
    returns: false,
    breaks: false,
    continues: false,
};

impl Tables {
    pub fn variable(&self, number: usize) -> Option<Variable>
        ensures { result ≡ variable_at (view self.now) number }
    {
        self.variables.get(number).copied()
    }

    pub fn procedure(&self, number: u16) -> Option<Procedure>
        ensures { result ≡ procedure_at (view self.now) number }
    {
        self.procedures.get(number as usize).copied()
    }

    pub fn node(&self, number: u16) -> Option<TypedNode>
        ensures { result ≡ node_at (view self.now) number }
    {
        self.nodes.get(number as usize).copied()
    }

    fn class(&self, node: u16) -> Option<Class>
        ensures { result ≡ option_map (λ n. n.class) (node_at (view self.now) node) }
    {
        Some(self.node(node)?.class)
    }

    // The data type of an expression; a void call has none.
    pub fn data_type(&self, node: u16) -> Option<DataType>
        ensures { result ≡ type_of (view self.now) node }
    {
        match self.class(node)? {
            Class::Value { data_type, .. } => data_type,
            Class::Argument | Class::Statement { .. } => None,
        }
    }

    pub fn level(&self, node: u16) -> u32
        ensures { result ≡ level_of (view self.now) node }
    {
        match self.class(node) {
            Some(Class::Value { level, .. }) => level,
            _ => 0,
        }
    }

    pub fn exits(&self, node: u16) -> Exits
        ensures { result ≡ exits_of (view self.now) node }
    {
        match self.class(node) {
            Some(Class::Statement { exits }) => exits,
            _ => FALLING,
        }
    }

    pub fn variable_type(&self, number: usize) -> Option<DataType>
        ensures { result ≡ variable_type (variable_at (view self.now) number) }
    {
        Some(self.variable(number)?.data_type)
    }

    pub fn variable_level(&self, number: usize) -> u32
        ensures { result ≡ variable_level (variable_at (view self.now) number) }
    {
        self.variable(number).map_or(0, |variable| variable.level)
    }

    // The data type of a procedure's result; a void procedure has none.
    pub fn result_type(&self, procedure: u16) -> Option<DataType>
        ensures { result ≡ result_of (procedure_at (view self.now) procedure) }
    {
        self.procedure(procedure)?.result
    }

    pub fn result_level(&self, procedure: u16) -> u32
        ensures { result ≡ result_level (procedure_at (view self.now) procedure) }
    {
        self.procedure(procedure)
            .map_or(0, |procedure| procedure.level)
    }
}
