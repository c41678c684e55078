// What a chosen kind of levels says of two words, and of a program file. Each question has its match on the kind: no closure
// takes either type, a `dyn` has no rules of its own, and a visitor is a struct and an `impl` for each of the three.
ghost use Rattle.std.specs.Prelude.{◌≡◌};
ghost use Rattle.typing.specs.Faults.{verdict_of};
ghost use Rattle.script.specs.Answers.{level_rules};

use checker::verdict::{Workspace, verdict as verdict_by};
use commands::types::LevelKind;
use levels::{Levels, MemberSets, TwoLevel};
use program::layout::Layout;
use program::refusal::Refusal;

pub fn flows(kind: LevelKind, from: u32, into: u32) -> bool
    ensures { result ≡ (level_rules kind).flows from into }
{
    match kind {
        LevelKind::Two => TwoLevel.flows(from, into),
        LevelKind::Members => MemberSets.flows(from, into),
    }
}

pub fn joint(kind: LevelKind, one: u32, other: u32) -> u32
    ensures { result ≡ (level_rules kind).joint one other }
{
    match kind {
        LevelKind::Two => TwoLevel.joint(one, other),
        LevelKind::Members => MemberSets.joint(one, other),
    }
}

pub fn verdict(kind: LevelKind, workspace: &mut Workspace, file: &[u8]) -> Result<Layout, Refusal>
    ensures { result ≡ verdict_of (level_rules kind) file.now }
{
    match kind {
        LevelKind::Two => verdict_by(&TwoLevel, workspace, file),
        LevelKind::Members => verdict_by(&MemberSets, workspace, file),
    }
}
