// The check of a whole file, into the tables.
ghost use Rattle.std.specs.Prelude.{◌≡◌, IfOk, OnOk};
ghost use Rattle.typing.specs.Faults.{environment, file_variables, file_procedures, file_nodes, records_fault, verdict_of};
ghost use Rattle.tables.specs.View.{view, Empty};
ghost use Rattle.checker.specs.Files.{variables_of, procedures_of, nodes_of};
ghost use Rattle.checker.specs.Records.{checked};

use crate::check::Check;
use crate::names::check_names;
use crate::records::Parts;
use levels::Levels;
use program::layout::Layout;
use program::refusal::Refusal;
use tables::tables::Tables;

impl<L: Levels> Check<'_, '_, L> {
    fn check_records(&self, tables: &mut Tables) -> Result<(), Refusal>
        requires { Empty tables.old }
        ensures value { result ≡ checked tt (records_fault L.Levels.rules self.now.parts.layout self.now.parts.file.now) }
        ensures filled { OnOk result (view tables.new ≡ environment (variables_of self.now.parts) (procedures_of self.now.parts) (nodes_of L.Levels.rules self.now.parts)) }
    {
        self.check_variables(tables)?;
        self.check_procedures(tables)?;
        self.check_nodes(tables)?;
        check_names(tables)
    }
}

// The counts of the records of a file that no row refuses, which the tables then hold, or the first fault.
pub fn fill<L: Levels>(levels: &L, tables: &mut Tables, file: &[u8]) -> Result<Layout, Refusal>
    ensures value { result ≡ verdict_of L.Levels.rules file.now }
    ensures filled { IfOk result (λ l. view tables.new ≡ environment (file_variables l file.now) (file_procedures l file.now) (file_nodes L.Levels.rules l file.now)) }
{
    tables.clear();
    let layout = Layout::read(file)?;
    let parts = Parts { file, layout };
    Check { levels, parts }.check_records(tables)?;
    Ok(layout)
}
