// The neighbours of a value: the greatest one at or below it, and the smallest at or above.
//
// Rank tells where in the high bits the neighbour is looked for: as many ones stand before the place as values are below. So no second
// select is made: the next one, or the one before, is mostly one of the 64 bits after the place, or before it.
ghost use Rattle.std.specs.Prelude.{◌≡◌, ◌-◌, ◌<◌, length, get_or};
ghost use Rattle.errors.specs.Answer.{of_option, of_optional};
ghost use Rattle.elias_fano.specs.Accept.{times};
ghost use Rattle.elias_fano.specs.Ask.{Predecessor, Successor, nth, below, greatest, asked, query};
ghost use Rattle.elias_fano.specs.Opening.{OneAt};
ghost use Rattle.elias_fano_queries.specs.Demands.{Behind};

use crate::rank::rank_within;
use bit_words::{first_from, last_before};
use elias_fano::image::{select_opened, value_at};
use elias_fano::opened::Image;
use errors::Refusal;

// The last value whose one stands before the place, which k ones stand before.
fn value_before(image: &Image, k: usize, place: usize) -> u64
    requires { Behind image.now.words.now image.now.parts k place × (0 < k) }
    ensures { result ≡ get_or (times image.now.words.now) (k - 1) 0 }
{
    let start = image.parts.low_at;
    let x = last_before(&image.words[6..start], place);
    value_at(image, k - 1, x)
}

// The one of the value with the number k: the first at the place or after it, which k ones stand before.
pub fn one_from(image: &Image, k: usize, place: usize) -> usize
    requires { Behind image.now.words.now image.now.parts k place × (k < image.now.parts.num_pushed) }
    ensures { OneAt image.now.words.now image.now.parts k result }
{
    let start = image.parts.low_at;
    first_from(&image.words[6..start], start - 6, place)
}

// The value with the number k, by its one.
fn value_from(image: &Image, k: usize, place: usize) -> u64
    requires { Behind image.now.words.now image.now.parts k place × (k < image.now.parts.num_pushed) }
    ensures { result ≡ get_or (times image.now.words.now) k 0 }
{
    let x = one_from(image, k, place);
    value_at(image, k, x)
}

// The last value, if there is one.
fn last_value(image: &Image) -> Option<u64>
    ensures { of_option result ≡ nth (times image.now.words.now) (length (times image.now.words.now) - 1) }
{
    let m = image.parts.num_pushed as usize;
    if m == 0 {
        return None;
    }
    select_opened(image, m - 1)
}

// The last value below t, if there is one: k values are below t.
fn last_below(image: &Image, k: usize, t: u64) -> Option<u64>
    requires { (0 < t) × (t < image.now.parts.universe) × (k ≡ below t (times image.now.words.now)) }
    ensures { of_option result ≡ greatest (t - 1) (times image.now.words.now) }
{
    if k == 0 {
        return None;
    }
    let h = (t >> image.parts.low_len) as usize;
    Some(value_before(image, k, h + k))
}

// The greatest value at or below val, of an opened image: the last one below `after`. All are below the universe, so that no rank is needed there.
pub fn predecessor_opened(image: &Image, val: u64) -> Result<Option<u64>, Refusal>
    ensures { of_optional result ≡ asked image.now.words.now (Predecessor val) }
{
    let after = if val < image.parts.universe {
        val + 1
    } else {
        image.parts.universe
    };
    if after == image.parts.universe {
        return Ok(last_value(image));
    }
    if !image.parts.rank {
        return Err(Refusal::NoRankIndex);
    }
    let k = rank_within(image, after);
    Ok(last_below(image, k, after))
}

// The smallest value at or above val, of an opened image.
pub fn successor_opened(image: &Image, val: u64) -> Result<Option<u64>, Refusal>
    ensures { of_optional result ≡ asked image.now.words.now (Successor val) }
{
    if val >= image.parts.universe {
        return Ok(None);
    }
    if !image.parts.rank {
        return Err(Refusal::NoRankIndex);
    }
    let k = rank_within(image, val);
    if k >= image.parts.num_pushed as usize {
        return Ok(None);
    }
    let h = (val >> image.parts.low_len) as usize;
    Ok(Some(value_from(image, k, h + k)))
}

// The greatest value at or below val.
pub fn predecessor(image: &[u64], val: u64) -> Result<Option<u64>, Refusal>
    ensures { of_optional result ≡ query image.now (Predecessor val) }
{
    let image = Image::open(image)?;
    predecessor_opened(&image, val)
}

// The smallest value at or above val.
pub fn successor(image: &[u64], val: u64) -> Result<Option<u64>, Refusal>
    ensures { of_optional result ≡ query image.now (Successor val) }
{
    let image = Image::open(image)?;
    successor_opened(&image, val)
}
