// Kinds of levels: the security lattices that figures are labelled from.
// An internal crate: hosts use `script` or the program `pool`.
#![tactic(auto)]

ghost use Rattle.std.specs.Prelude.{◌≡◌};
ghost use Rattle.levels.specs.Rules.{Rules, Lawful};
ghost use Rattle.levels.specs.Kinds.{two_level_rules, member_set_rules};
ghost use Rattle.std.proofs.Common.{rules};
ghost use Rattle.levels.specs.Sets.{set_lawful};

// A kind of levels. Its meaning is three fixed functions of words, held to the laws of a lattice with 0 as its least level.
pub trait Levels {
    ghost rules: { Rules };

    fn is_level(&self, word: u32) -> bool
        ensures { result ≡ rules.is_level word };

    // Whether a figure of the first level may go where the second is asked.
    fn flows(&self, from: u32, into: u32) -> bool
        ensures { result ≡ rules.flows from into };

    // The least level that both flow into.
    fn joint(&self, one: u32, other: u32) -> u32
        ensures { result ≡ rules.joint one other };

    ghost lawful: { Lawful rules };
}

// Level 0 is public and level 1 private.
#[derive(Clone, Copy, Debug)]
pub struct TwoLevel;

impl Levels for TwoLevel {
    ghost rules = { two_level_rules };

    ghost lawful = { Prim.search rules };

    fn is_level(&self, word: u32) -> bool {
        word < 2
    }

    fn flows(&self, from: u32, into: u32) -> bool {
        from <= into && into < 2
    }

    fn joint(&self, one: u32, other: u32) -> u32 {
        if one < 2 && other < 2 {
            one.max(other)
        } else {
            0
        }
    }
}

// Sets of sixteen members: bit i of a level stands for member i.
#[derive(Clone, Copy, Debug)]
pub struct MemberSets;

impl Levels for MemberSets {
    ghost rules = { member_set_rules };

    ghost lawful = { set_lawful 16 };

    fn is_level(&self, word: u32) -> bool {
        word < 65536
    }

    fn flows(&self, from: u32, into: u32) -> bool {
        from < 65536 && into < 65536 && from & into == from
    }

    fn joint(&self, one: u32, other: u32) -> u32 {
        if one < 65536 && other < 65536 {
            one | other
        } else {
            0
        }
    }
}
