// The procedure records, and rows 5 to 8.
ghost use Rattle.std.specs.Prelude.{◌≡◌, ◌+◌, ◌&&◌, [], length, Some, OnOk, nat_le, nat_lt};
ghost use Rattle.program.specs.Decode.{procedure_decoded};
ghost use Rattle.program.specs.Program.{no_procedure};
ghost use Rattle.program.specs.declared.refusal.Refusal.TheVariants.{Result as BadResult};
ghost use Rattle.typing.specs.Faults.{known, result_fits, is_parameter_of, same_truth, owned_at, all_below, parameters_fit, rises, body_stands, main_fits, procedure_rows};
ghost use Rattle.typing.specs.First.{or_else, unless, first};
ghost use Rattle.checker.specs.Files.{variables_of, procedures_of, fault_of_procedure};
ghost use Rattle.checker.specs.Records.{checked, Holds};

use crate::check::Check;
use crate::records::Parts;
use crate::rows::require;
use levels::Levels;
use program::decode::{decode_procedure, is_statement_kind};
use program::fields::ProcedureFields;
use program::records::{Procedure, Role, Variable};
use program::refusal::Refusal;
use tables::tables::Tables;

fn result_fits<L: Levels>(levels: &L, procedure: Procedure) -> bool
    ensures { result ≡ result_fits L.Levels.rules (Some procedure) }
{
    levels.is_level(procedure.level) && (procedure.result.is_some() || procedure.level == 0)
}

// Whether a variable is a parameter of the procedure of a number exactly if it is one of those that the procedure names.
fn is_owned(variable: Variable, place: usize, number: u16, procedure: Procedure) -> bool
    ensures { result ≡ same_truth (is_parameter_of number variable.role) (nat_le procedure.first_parameter place && nat_lt place (procedure.first_parameter + procedure.parameters)) }
{
    let first = procedure.first_parameter as usize;
    let named = first..first + procedure.parameters as usize;
    (variable.role == Role::Parameter { procedure: number }) == named.contains(&place)
}

fn all_owned(variables: &[Variable], number: u16, procedure: Procedure) -> bool
    ensures { result ≡ all_below (owned_at variables.now number procedure.first_parameter procedure.parameters) (length variables.now) }
{
    variables.iter().enumerate().all(|(place, variable)| is_owned(
        *variable, place, number, procedure,
    ))
}

fn parameters_fit(variables: &[Variable], place: u16, procedure: Procedure) -> bool
    ensures { result ≡ parameters_fit variables.now place procedure }
{
    let Procedure {
        parameters,
        first_parameter,
        ..
    } = procedure;
    parameters <= 8
        && first_parameter as usize + parameters as usize <= variables.len()
        && (parameters != 0 || first_parameter == 0)
        && all_owned(variables, place, procedure)
}

// Whether a body is above that of the procedure before.
fn is_above(procedures: &[Procedure], body: u16) -> bool
    ensures { result ≡ rises procedures.now body }
{
    procedures.last().is_none_or(|last| last.body < body)
}

fn body_stands(parts: &Parts, procedures: &[Procedure], place: u16, body: u16) -> bool
    ensures { result ≡ body_stands parts.now.file.now parts.now.layout.nodes parts.now.layout.procedures procedures.now place body }
{
    let Parts { file, layout } = *parts;
    let body_place = body as usize;
    is_above(procedures, body)
        && body_place < layout.nodes
        && is_statement_kind(file[12 * body_place])
        && (place as usize + 1 != layout.procedures || body_place + 1 == layout.nodes)
}

// The last procedure is main.
fn main_fits(procedures: usize, place: u16, procedure: Procedure) -> bool
    ensures { result ≡ main_fits procedures place procedure }
{
    place as usize + 1 != procedures || (procedure.result.is_none() && procedure.parameters == 0)
}

impl<L: Levels> Check<'_, '_, L> {
    // Checks a record after those that the tables hold.
    fn check_procedure(
        &self,
        tables: &Tables,
        place: u16,
        fields: ProcedureFields,
    ) -> Result<Procedure, Refusal>
        ensures { result ≡ checked (known no_procedure (procedure_decoded fields)) (or_else (unless (result_fits L.Levels.rules (procedure_decoded fields)) (BadResult place)) (procedure_rows self.now.parts.file.now self.now.parts.layout.nodes self.now.parts.layout.procedures tables.now.variables.items tables.now.procedures.items place (known no_procedure (procedure_decoded fields)))) }
    {
        let procedure = decode_procedure(fields).ok_or(Refusal::Result(place))?;
        require(result_fits(self.levels, procedure), Refusal::Result(place))?;
        require(
            parameters_fit(&tables.variables, place, procedure),
            Refusal::Parameters(place),
        )?;
        require(
            body_stands(&self.parts, &tables.procedures, place, procedure.body),
            Refusal::Body(place),
        )?;
        require(
            main_fits(self.parts.layout.procedures, place, procedure),
            Refusal::Main(place),
        )?;
        Ok(procedure)
    }

    pub(crate) fn check_procedures(&self, tables: &mut Tables) -> Result<(), Refusal>
        requires { Holds tables.old (variables_of self.now.parts) [] [] }
        ensures value { result ≡ checked tt (first (fault_of_procedure L.Levels.rules self.now.parts) self.now.parts.layout.procedures) }
        ensures filled { OnOk result (Holds tables.new (variables_of self.now.parts) (procedures_of self.now.parts) []) }
    {
        for (place, fields) in self.parts.procedures().enumerate() {
            let procedure = self.check_procedure(tables, place as u16, fields)?;
            tables.procedures.push_reserved(procedure);
        }
        Ok(())
    }
}
