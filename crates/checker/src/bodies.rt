// Which procedure a node belongs to: node 0 to the first, and the node after a body to the next.
ghost use Rattle.std.specs.Prelude.{◌≡◌, suc, ◌<◌, if◌then◌else◌};
ghost use Rattle.checker.specs.Records.{is_body_of};

use tables::tables::Tables;

// A place and its procedure stand beside the tables, here and in `names`. `Site` has the three with levels, which these do not
// need, and a struct of the three alone would be named at each call with all its fields, and be no shorter.
pub(crate) fn is_body_of(tables: &Tables, procedure: u16, place: u16) -> bool
    ensures { result ≡ is_body_of tables.now.procedures.items procedure place }
{
    tables
        .procedure(procedure)
        .map_or(0, |procedure| procedure.body)
        == place
}

// The procedure of the node after the one at `place`, which belongs to `procedure`.
pub(crate) fn next_procedure(tables: &Tables, procedure: u16, place: u16) -> u16
    requires { procedure < 65535 }
    ensures { result ≡ (if is_body_of tables.now.procedures.items procedure place then suc procedure else procedure) }
{
    if is_body_of(tables, procedure, place) {
        procedure + 1
    } else {
        procedure
    }
}
