// Row 11: each child is below its parent, of the parent's procedure, and of the class that the parent asks.
ghost use Rattle.std.specs.Prelude.{◌≡◌};
ghost use Rattle.typing.specs.Rows.{child_class, value_child, statement_child, argument_child, children_fit};
ghost use Rattle.tables.specs.View.{view};

use crate::site::Site;
use program::records::Node;
use typing::classes::Class;

impl<L> Site<'_, L> {
    // The class of a child, where it is one that the node may have.
    fn child_class(&self, child: u16) -> Option<Class>
        ensures { result ≡ child_class (view self.now.tables.now) self.now.place self.now.procedure child }
    {
        if child >= 1024 {
            return None;
        }
        if child >= self.place {
            return None;
        }
        let node = self.tables.node(child)?;
        (node.procedure == self.procedure).then_some(node.class)
    }

    // A function for each class: no function takes a pattern, and a closure that has it would stand at every call.
    fn is_value(&self, child: u16) -> bool
        ensures { result ≡ value_child (view self.now.tables.now) self.now.place self.now.procedure child }
    {
        matches!(self.child_class(child), Some(Class::Value { .. }))
    }

    fn is_statement(&self, child: u16) -> bool
        ensures { result ≡ statement_child (view self.now.tables.now) self.now.place self.now.procedure child }
    {
        matches!(self.child_class(child), Some(Class::Statement { .. }))
    }

    // An argument that may be absent. By a match: with `is_none_or` the proof did not close, since it is told nothing of what
    // the closure answers, be it with clauses or over a method for the class.
    fn is_argument(&self, child: Option<u16>) -> bool
        ensures { result ≡ argument_child (view self.now.tables.now) self.now.place self.now.procedure child }
    {
        match child {
            None => true,
            Some(child) => matches!(self.child_class(child), Some(Class::Argument)),
        }
    }

    pub(crate) fn children_fit(&self, node: Node) -> bool
        ensures { result ≡ children_fit (view self.now.tables.now) self.now.place self.now.procedure node }
    {
        match node {
            Node::Minus { operand: child }
            | Node::Not { operand: child }
            | Node::Assignment { value: child, .. }
            | Node::Release { operand: child }
            | Node::Expression { value: child }
            | Node::Return { value: child }
            | Node::Output { operand: child } => self.is_value(child),
            Node::Arithmetic { left, right, .. }
            | Node::Comparison { left, right, .. }
            | Node::And { left, right }
            | Node::Or { left, right } => self.is_value(left) && self.is_value(right),
            Node::Choice {
                condition,
                chosen,
                otherwise,
            } => self.is_value(condition) && self.is_value(chosen) && self.is_value(otherwise),
            Node::Call { first, .. } => self.is_argument(first),
            Node::Argument { value, next } => self.is_value(value) && self.is_argument(next),
            Node::Sequence { first, second } => self.is_statement(first)
                && self.is_statement(second),
            Node::If { condition, branch } => self.is_value(condition) && self.is_statement(branch),
            Node::IfElse {
                condition,
                branch,
                otherwise,
            } => self.is_value(condition)
                && self.is_statement(branch)
                && self.is_statement(otherwise),
            Node::While { condition, body } | Node::DoWhile { condition, body } => self.is_value(
                condition,
            ) && self.is_statement(body),
            _ => true,
        }
    }
}
