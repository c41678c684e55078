// The machine: a checked program that runs over a holding.
use crate::control::Control;
use crate::sheet::Sheet;
use crate::store::Store;
use holding::interface::Holding;

mod arguments;
mod moves;
mod run;

// No model: what a step does is told by the program and the entries, which a configuration does not have.
#[derive(Drop)]
pub struct Machine<H: Holding + Drop> {
    pub control: Control,
    pub store: Store<H>,
    pub sheet: Sheet,
}
