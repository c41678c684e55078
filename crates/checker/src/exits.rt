// Row 16: a sequence goes on after its first part, a loop after its body, and a procedure's body ends as its result asks.
ghost use Rattle.std.specs.Prelude.{◌≡◌};
ghost use Rattle.typing.specs.Exits.{union, sequence_exits, loop_exits};
ghost use Rattle.typing.specs.Rows.{repeats, parts_fit, body_exits_fit, body_fits, exits_fit};
ghost use Rattle.tables.specs.View.{view};

use crate::site::Site;
use levels::Levels;
use program::records::{Node, Procedure};
use tables::lookups::FALLING;
use typing::classes::{Class, Exits};
use words::types::DataType;

pub(crate) const RETURNING: Exits = Exits {
    falls: false,
    returns: true,
    breaks: false,
    continues: false,
};

pub(crate) const BREAKING: Exits = Exits {
    falls: false,
    returns: false,
    breaks: true,
    continues: false,
};

pub(crate) const CONTINUING: Exits = Exits {
    falls: false,
    returns: false,
    breaks: false,
    continues: true,
};

// The exits of either of two parts.
pub(crate) fn either(one: Exits, other: Exits) -> Exits
    ensures { result ≡ union one other }
{
    Exits {
        falls: one.falls || other.falls,
        returns: one.returns || other.returns,
        breaks: one.breaks || other.breaks,
        continues: one.continues || other.continues,
    }
}

pub(crate) fn in_sequence(first: Exits, second: Exits) -> Exits
    ensures { result ≡ sequence_exits first second }
{
    either(
        Exits {
            falls: false,
            ..first
        },
        second,
    )
}

// The exits of a loop's statement, from those of its body.
pub(crate) fn around(body: Exits) -> Exits
    ensures { result ≡ loop_exits body }
{
    either(
        Exits {
            breaks: false,
            continues: false,
            ..body
        },
        FALLING,
    )
}

fn comes_round(body: Exits) -> bool
    ensures { result ≡ repeats body }
{
    body.falls || body.continues
}

fn body_exits_fit(res: Option<DataType>, exits: Exits) -> bool
    ensures { result ≡ body_exits_fit res exits }
{
    match res {
        None => !exits.breaks && !exits.continues,
        Some(_) => exits.returns && !exits.falls && !exits.breaks && !exits.continues,
    }
}

// What is asked of a body, tested at the node that is one.
fn body_fits(place: u16, procedure: Option<Procedure>, class: Class) -> bool
    ensures { result ≡ body_fits place procedure class }
{
    let Some(procedure) = procedure else {
        return true;
    };
    if procedure.body != place {
        return true;
    }
    let exits = match class {
        Class::Statement { exits } => exits,
        Class::Value { .. } | Class::Argument => FALLING,
    };
    body_exits_fit(procedure.result, exits)
}

impl<L: Levels> Site<'_, L> {
    fn parts_fit(&self, node: Node) -> bool
        ensures { result ≡ parts_fit (view self.now.tables.now) node }
    {
        match node {
            Node::Sequence { first, .. } => self.tables.exits(first).falls,
            Node::While { body, .. } | Node::DoWhile { body, .. } => comes_round(
                self.tables.exits(body),
            ),
            _ => true,
        }
    }

    pub(crate) fn exits_fit(&self, node: Node) -> bool
        ensures { result ≡ exits_fit L.Levels.rules (view self.now.tables.now) self.now.place self.now.procedure node }
    {
        let procedure = self.tables.procedure(self.procedure);
        self.parts_fit(node) && body_fits(self.place, procedure, self.class_of(node))
    }
}
