// What the header of an image says. For an opened image these are its parts.
ghost use Rattle.std.specs.Prelude.{◌≡◌};
ghost use Rattle.errors.specs.Answer.{of_result, of_truth};
ghost use Rattle.elias_fano.specs.Ask.{Len, IsEmpty, Universe, HasRank, query};

use elias_fano::opened::Image;
use errors::Refusal;

// How many values there are.
pub fn len(image: &[u64]) -> Result<usize, Refusal>
    ensures { of_result result ≡ query image.now Len }
{
    let image = Image::open(image)?;
    Ok(image.parts.num_pushed as usize)
}

// Whether there is no value.
pub fn is_empty(image: &[u64]) -> Result<bool, Refusal>
    ensures { of_truth result ≡ query image.now IsEmpty }
{
    let image = Image::open(image)?;
    Ok(image.parts.num_pushed == 0)
}

// What every value is below.
pub fn universe(image: &[u64]) -> Result<u64, Refusal>
    ensures { of_result result ≡ query image.now Universe }
{
    let image = Image::open(image)?;
    Ok(image.parts.universe)
}

// Whether rank and neighbours can be asked.
pub fn has_rank(image: &[u64]) -> Result<bool, Refusal>
    ensures { of_truth result ≡ query image.now HasRank }
{
    let image = Image::open(image)?;
    Ok(image.parts.rank)
}
