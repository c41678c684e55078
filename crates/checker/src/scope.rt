// Row 12: a variable that is named is there, and of this procedure if it is a local or a parameter.
ghost use Rattle.std.specs.Prelude.{◌≡◌, option_map};
ghost use Rattle.typing.specs.Environment.{variable_at};
ghost use Rattle.typing.specs.Rows.{readable, assignable, definable, scope_fits};
ghost use Rattle.tables.specs.View.{view};

use crate::site::Site;
use program::records::{Node, Role};

impl<L> Site<'_, L> {
    fn role(&self, variable: u16) -> Option<Role>
        ensures { result ≡ option_map (λ v. v.role) (variable_at (view self.now.tables.now) variable) }
    {
        Some(self.tables.variable(variable as usize)?.role)
    }

    // Reading and assigning differ in which roles they let pass, and each says so in one match, over a variable that may not be
    // there.
    fn may_read(&self, variable: u16) -> bool
        ensures { result ≡ readable self.now.procedure (variable_at (view self.now.tables.now) variable) }
    {
        match self.role(variable) {
            Some(Role::Global | Role::Input) => true,
            Some(Role::Local { procedure } | Role::Parameter { procedure }) => procedure
                == self.procedure,
            None => false,
        }
    }

    fn may_assign(&self, variable: u16) -> bool
        ensures { result ≡ assignable self.now.procedure (variable_at (view self.now.tables.now) variable) }
    {
        match self.role(variable) {
            Some(Role::Global | Role::Input) => true,
            Some(Role::Local { procedure }) => procedure == self.procedure,
            Some(Role::Parameter { .. }) | None => false,
        }
    }

    fn may_define(&self, variable: u16) -> bool
        ensures { result ≡ definable self.now.procedure (variable_at (view self.now.tables.now) variable) }
    {
        let procedure = self.procedure;
        self.role(variable) == Some(Role::Local { procedure })
    }

    pub(crate) fn scope_fits(&self, node: Node) -> bool
        ensures { result ≡ scope_fits (view self.now.tables.now) self.now.procedure node }
    {
        match node {
            Node::Variable { variable } => self.may_read(variable),
            Node::Assignment { variable, .. } => self.may_assign(variable),
            Node::Definition { variable } => self.may_define(variable),
            _ => true,
        }
    }
}
