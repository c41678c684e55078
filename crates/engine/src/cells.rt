// The cells of the variables, one for each number that a variable may have.
ghost use Rattle.std.specs.Prelude.{◌≡◌, length};

use semantics::values::Value;

mod lend;

// How many variables a program may have.
pub const CELLS: usize = 128;

// An array, since a run asks for no memory. Its length is a ghost field: without one no proof is found that what is written to
// a lent cell stays.
#[derive(Drop)]
pub struct Cells<S> {
    cells: [Value<S>; CELLS],
    ghost whole: { length cells ≡ 128 },
}
