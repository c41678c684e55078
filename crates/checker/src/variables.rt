// The variable records, and row 4.
ghost use Rattle.std.specs.Prelude.{◌≡◌, [], Some, OnOk};
ghost use Rattle.program.specs.Decode.{variable_decoded};
ghost use Rattle.program.specs.Program.{no_variable};
ghost use Rattle.program.specs.declared.refusal.Refusal.TheVariants.{Variable as BadVariable};
ghost use Rattle.typing.specs.Faults.{known, variable_fits};
ghost use Rattle.typing.specs.First.{unless, first};
ghost use Rattle.tables.specs.View.{Empty};
ghost use Rattle.checker.specs.Files.{variables_of, fault_of_variable};
ghost use Rattle.checker.specs.Records.{checked, Holds};

use crate::check::Check;
use levels::Levels;
use program::decode::decode_variable;
use program::fields::VariableFields;
use program::records::{Role, Variable};
use program::refusal::Refusal;
use tables::tables::Tables;

fn variable_fits<L: Levels>(levels: &L, procedures: usize, variable: Variable) -> bool
    ensures { result ≡ variable_fits L.Levels.rules procedures (Some variable) }
{
    let owned = match variable.role {
        Role::Global | Role::Input => true,
        Role::Local { procedure } | Role::Parameter { procedure } => (procedure as usize)
            < procedures,
    };
    owned && levels.is_level(variable.level)
}

impl<L: Levels> Check<'_, '_, L> {
    fn check_variable(&self, place: u16, fields: VariableFields) -> Result<Variable, Refusal>
        ensures { result ≡ checked (known no_variable (variable_decoded fields)) (unless (variable_fits L.Levels.rules self.now.parts.layout.procedures (variable_decoded fields)) (BadVariable place)) }
    {
        let procedures = self.parts.layout.procedures;
        decode_variable(fields)
            .filter(|variable| variable_fits(self.levels, procedures, *variable))
            .ok_or(Refusal::Variable(place))
    }

    pub(crate) fn check_variables(&self, tables: &mut Tables) -> Result<(), Refusal>
        requires { Empty tables.old }
        ensures value { result ≡ checked tt (first (fault_of_variable L.Levels.rules self.now.parts) self.now.parts.layout.variables) }
        ensures filled { OnOk result (Holds tables.new (variables_of self.now.parts) [] []) }
    {
        for (place, fields) in self.parts.variables().enumerate() {
            let variable = self.check_variable(place as u16, fields)?;
            tables.variables.push_reserved(variable);
        }
        Ok(())
    }
}
