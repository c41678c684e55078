// The memory of a run, reserved once: no call after that asks for any.
ghost use Rattle.std.specs.Prelude.{◌≤◌, vec_capacity};

use crate::frames::Entry;
use crate::sheet::Sheet;
use tables::tables::Tables;

mod reserve;

#[derive(Drop)]
pub struct Workspace {
    pub tables: Tables,
    pub stack: Vec<Entry>,
    pub sheet: Sheet,
    ghost stack_room: { 1024 ≤ vec_capacity stack },
}
