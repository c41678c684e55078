// Row 17: each node but a body is named as a child exactly once. That there are at most 1024 is asked three times: as a ghost
// field it would be asked of everyone who makes tables.
ghost use Rattle.std.specs.Prelude.{◌≡◌, ◌≤◌, ◌||◌, [], length, replicate, fold, vec_capacity};
ghost use Rattle.program.specs.Program.{children, optional};
ghost use Rattle.typing.specs.Faults.{name_fault};
ghost use Rattle.typing.specs.First.{first};
ghost use Rattle.tables.specs.View.{view};
ghost use Rattle.tables.specs.declared.tables.Naming.TheVariants.{Never};
ghost use Rattle.checker.specs.Names.{more, is_once, marked_all, marked_by, count_fault};
ghost use Rattle.checker.specs.Records.{checked, is_body_of};

use crate::bodies::{is_body_of, next_procedure};
use crate::rows::require;
use program::records::Node;
use program::refusal::Refusal;
use tables::tables::{Naming, Tables};
use typing::classes::TypedNode;

fn once_more(naming: Naming) -> Naming
    ensures { result ≡ more naming }
{
    match naming {
        Naming::Never => Naming::Once,
        Naming::Once | Naming::Often => Naming::Often,
    }
}

// Marks a child, if there is one.
fn mark(names: &mut [Naming], child: Option<u16>)
    ensures { names.new ≡ marked_all names.old (optional child) }
{
    let Some(child) = child else {
        return;
    };
    // By a test of the index: what `get_mut` leaves in a slice is not known to a proof.
    let child = child as usize;
    if child < names.len() {
        names[child] = once_more(names[child]);
    }
}

fn mark_children(names: &mut [Naming], node: Node)
    ensures { names.new ≡ marked_all names.old (children node) }
{
    for child in node.children() {
        mark(names, child);
    }
}

fn mark_names(names: &mut [Naming], nodes: &[TypedNode])
    ensures { names.new ≡ fold marked_by names.old nodes.now }
{
    for node in nodes {
        mark_children(names, node.node);
    }
}

// Makes an entry for each node. Entry by entry: `resize` answers a Result, whose error cannot come here, and says nowhere that
// it asks for no memory where there is room.
fn name_none(names: &mut Vec<Naming>, nodes: &[TypedNode])
    requires room { (length nodes.now ≤ 1024) × (1024 ≤ vec_capacity names.old) }
    requires empty { names.old.items ≡ [] }
    ensures items { names.new.items ≡ replicate (length nodes.now) Never }
    ensures capacity { vec_capacity names.new ≡ vec_capacity names.old }
{
    for _ in nodes {
        names.push_reserved(Naming::Never);
    }
}

fn is_well_named(tables: &Tables, procedure: u16, place: u16, naming: Naming) -> bool
    ensures { result ≡ (is_body_of tables.now.procedures.items procedure place || is_once naming) }
{
    is_body_of(tables, procedure, place) || naming == Naming::Once
}

fn check_counts(tables: &Tables) -> Result<(), Refusal>
    requires { length tables.now.names.items ≤ 1024 }
    ensures { result ≡ checked tt (first (count_fault tables.now.procedures.items tables.now.names.items) (length tables.now.names.items)) }
{
    let mut procedure = 0;
    for (place, naming) in tables.names.iter().enumerate() {
        let place = place as u16;
        require(
            is_well_named(tables, procedure, place, *naming),
            Refusal::Naming(place),
        )?;
        procedure = next_procedure(tables, procedure, place);
    }
    Ok(())
}

pub(crate) fn check_names(tables: &mut Tables) -> Result<(), Refusal>
    requires room { length tables.old.nodes.items ≤ 1024 }
    requires empty { tables.old.names.items ≡ [] }
    ensures value { result ≡ checked tt (first (name_fault tables.old.procedures.items tables.old.nodes.items) (length tables.old.nodes.items)) }
    ensures same { view tables.new ≡ view tables.old }
{
    name_none(&mut tables.names, &tables.nodes);
    mark_names(&mut tables.names, &tables.nodes);
    check_counts(tables)
}
