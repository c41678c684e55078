// Amending a declared weight inside a holding.
ghost use Rattle.std.specs.Prelude.{◌≡◌};
ghost use Rattle.script.specs.Answers.{amended, amended_counts};

use holding::interface::Holding;
use words::types::{Arithmetic, DataType};

// Puts both ints in, adds them, and takes the sum out.
pub fn amend<H: Holding>(holding: &mut H, weight: u32, correction: u32) -> u32
    ensures sum { result ≡ amended weight correction }
    ensures counts { H.counts holding.new ≡ amended_counts (H.counts holding.old) }
{
    let weight = holding.put_in(weight);
    let correction = holding.put_in(correction);
    let sum = holding.arithmetic(Arithmetic::Add, DataType::Int, weight, correction);
    holding.take_out(sum)
}
