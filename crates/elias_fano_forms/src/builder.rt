// `push` with the builder lent to be altered.
ghost use Rattle.std.specs.Prelude.{◌≡◌};
ghost use Rattle.errors.specs.Answer.{of_done};
ghost use Rattle.elias_fano.specs.Made.{made};
ghost use Rattle.elias_fano.specs.Steps.{push_of};

use elias_fano::builder::Builder;
use errors::Refusal;

// Files one value more, and alters the builder; a refusal leaves it (document 01: a reading).
pub fn push<'s, 'a>(b: &'s mut Builder, val: u64, buffer: &'a mut [u64]) -> Result<(), Refusal>
    ensures { made (of_done result) b.new buffer.new ≡ push_of b.old val buffer.old }
{
    let next = elias_fano::builder::push(*b, val, buffer)?;
    *b = next;
    Ok(())
}
