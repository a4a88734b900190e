// Asking for the items: the gaps of the record that holds their prefix sums. No words hold no items, and any accepted image may be asked.
ghost use Rattle.std.specs.Prelude.{◌≡◌};
ghost use Rattle.errors.specs.Answer.{of_optional, of_result};
ghost use Rattle.prefix_summed_elias_fano.specs.Sums.{access_of, len_of};

use elias_fano_queries::delta::delta;
use errors::Refusal;

// The item at a place.
pub fn access(image: &[u64], pos: usize) -> Result<Option<u64>, Refusal>
    ensures { of_optional result ≡ access_of image.now pos }
{
    if image.is_empty() {
        return Ok(None);
    }
    delta(image, pos)
}

// How many items there are.
pub fn len(image: &[u64]) -> Result<usize, Refusal>
    ensures { of_result result ≡ len_of image.now }
{
    if image.is_empty() {
        return Ok(0);
    }
    elias_fano_queries::header::len(image)
}
