// The verdict on a program file.
ghost use Rattle.std.specs.Prelude.{◌≡◌, IfOk};
ghost use Rattle.typing.specs.Acceptance.{DecidesAcceptance, SoundAcceptance};
ghost use Rattle.typing.specs.Faults.{verdict_of};
ghost use Rattle.tables.specs.View.{Empty};

use crate::fill::fill;
use levels::Levels;
use program::layout::Layout;
use program::refusal::Refusal;
use std::alloc::{AllocError, Global};
use tables::tables::Tables;

// Memory for the verdicts on any number of files. What a check leaves in it is nobody's to read.
#[derive(Drop)]
pub struct Workspace {
    tables: Tables,
}

impl Workspace {
    pub fn reserve(heap: Global) -> Result<Workspace, AllocError>
        ensures { IfOk result (λ w. Empty w.tables) }
    {
        let tables = Tables::reserve(heap)?;
        Ok(Workspace { tables })
    }
}

// The counts of the records of a file that no row refuses, or the first fault. No row refuses a file exactly where it is
// a well-formed and well-typed program's; its data types, levels and exits are then unique, and its nodes are trees. The
// value stands in the contracts of `fill` and of the engine's check too: each is asked by someone else, and says it whole.
pub fn verdict<L: Levels>(
    levels: &L,
    workspace: &mut Workspace,
    file: &[u8],
) -> Result<Layout, Refusal>
    ensures value { result ≡ verdict_of L.Levels.rules file.now }
    ensures decides { DecidesAcceptance L.Levels.rules }
    ensures sound { SoundAcceptance L.Levels.rules }
{
    fill(levels, &mut workspace.tables, file)
}
