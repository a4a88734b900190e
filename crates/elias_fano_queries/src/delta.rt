// The gap between a value and the one before it.
ghost use Rattle.std.specs.Prelude.{◌≡◌};
ghost use Rattle.errors.specs.Answer.{of_option, of_optional};
ghost use Rattle.elias_fano.specs.Ask.{Delta, asked, query};

use crate::neighbours::one_from;
use elias_fano::image::{one_at, value_at, value_of};
use elias_fano::opened::Image;
use errors::Refusal;

// The value with the number k less the one before it, of an opened image; the first value for 0. One select finds the one before; that of the
// value itself is the next in the high bits.
pub fn delta_opened(image: &Image, k: usize) -> Option<u64>
    ensures { of_option result ≡ asked image.now.words.now (Delta k) }
{
    if k >= image.parts.num_pushed as usize {
        return None;
    }
    if k == 0 {
        return Some(value_of(image, k));
    }
    let before = one_at(image, k - 1);
    let place = one_from(image, k, before + 1);
    Some(value_at(image, k, place) - value_at(image, k - 1, before))
}

// The value with the number k less the one before it; the first value for 0.
pub fn delta(image: &[u64], k: usize) -> Result<Option<u64>, Refusal>
    ensures { of_optional result ≡ query image.now (Delta k) }
{
    let image = Image::open(image)?;
    Ok(delta_opened(&image, k))
}
