// The two parts of an opening: a file is checked into the workspace, and a machine is made of what was checked.
ghost use Rattle.std.specs.Prelude.{◌≡◌, ◌≤◌, length, OnOk};
ghost use Rattle.typing.specs.Faults.{verdict_of};
ghost use Rattle.tables.specs.View.{view};
ghost use Rattle.semantics.specs.Checked.{Checked};
ghost use Rattle.semantics.specs.Fitting.{LevelsKept};
ghost use Rattle.semantics.specs.Laws.{OperatorLaws};
ghost use Rattle.semantics.specs.Opening.{zeroed, unset, main, opened};
ghost use Rattle.engine.specs.Opening.{Ready, CellsFit};
ghost use Rattle.engine.specs.Running.{program, standing};

use crate::cells::Cells;
use crate::control::Control;
use crate::frames::Next;
use crate::machine::Machine;
use crate::records::procedure;
use crate::store::Store;
use crate::workspace::Workspace;
use checker::fill::fill;
use holding::interface::Holding;
use levels::Levels;
use program::layout::Layout;
use program::records::Variable;
use program::refusal::Refusal;
use semantics::values::Value;
use tables::tables::Tables;

// The counts of the records of a file that no row refuses, which the workspace then holds, or the first fault. What it
// then holds is a well-formed and well-typed program: its runs keep to its levels, and its operators to their laws.
pub(crate) fn check<L: Levels>(
    levels: &L,
    workspace: &mut Workspace,
    file: &[u8],
) -> Result<Layout, Refusal>
    ensures value { result ≡ verdict_of L.Levels.rules file.now }
    ensures checked { OnOk result (Checked L.Levels.rules file.now (view workspace.new.tables)) }
    ensures ready { OnOk result (Ready (view workspace.new.tables)) }
    ensures levels { LevelsKept L.Levels.rules }
    ensures operators { OperatorLaws L.Levels.rules }
{
    fill(levels, &mut workspace.tables, file)
}

impl<H: Holding + Drop> Store<H> {
    // Every cell is 0: those of the variables are set so in order, and put in where their level is not public.
    #[tactic(auto, unfolding(semantics::specs::Opening::zeroed))]
    fn all_zero(holding: H, variables: &[Variable]) -> Store<H>
        ensures { result ≡ zeroed 0 variables.now (unset (H.counts holding)) }
    {
        let mut store = Store {
            holding,
            cells: Cells::all(Value::Plain(0)),
        };
        for (i, variable) in variables.iter().enumerate() {
            store.set(i, variable.level, Value::Plain(0));
        }
        store
    }
}

// The last procedure.
pub(crate) fn main_of(tables: &Tables) -> u16
    requires some { 1 ≤ length (view tables.now).procedures }
    requires few { length (view tables.now).procedures ≤ 32 }
    ensures { result ≡ main (view tables.now) }
{
    (tables.procedures.len() - 1) as u16
}

// A machine of its own tables, about to begin its main procedure. Its cells fit the levels of their variables.
#[tactic(auto, unfolding(crate::specs::Shape::stack_fits, crate::specs::View::frames_of))]
pub(crate) fn make<H: Holding + Drop>(workspace: Workspace, holding: H) -> Machine<H>
    requires { Ready (view workspace.tables) }
    ensures program { program result ≡ view workspace.tables }
    ensures stands { standing H.stands result ≡ opened (view workspace.tables) (H.counts holding) }
    ensures fits { CellsFit (view workspace.tables) result.store }
{
    let Workspace {
        tables,
        mut stack,
        mut sheet,
    } = workspace;
    stack.clear();
    sheet.clear();
    let body = procedure(&tables, main_of(&tables)).body;
    let store = Store::all_zero(holding, &tables.variables);
    Machine {
        control: Control {
            tables,
            stack,
            next: Next::Begin(body),
        },
        store,
        sheet,
    }
}
