// Reading out: the values from a number on, as many as the lent words take (document 01: reading out).
ghost use Rattle.std.specs.Prelude.{◌≡◌, ◌++◌, ◌-◌, ◌≤◌, min, length, take as take_list, drop};
ghost use Rattle.errors.specs.Answer.{leaves, of_result};
ghost use Rattle.elias_fano.specs.Accept.{times};
ghost use Rattle.elias_fano.specs.Ask.{read_out, filled, read_from_of};
ghost use Rattle.elias_fano_walk.specs.Walking.{WalkOver};

use crate::walk::{Walk, begin, take};
use elias_fano::opened::Image;
use errors::Refusal;

// The next `count` values are written to the first words of `out`.
fn take_all(image: &Image, from: Walk, count: usize, out: &mut [u64])
    requires { WalkOver image.now.words.now image.now.parts from × (count ≤ image.now.parts.num_pushed - from.number) × (count ≤ length out.old) }
    ensures { out.new ≡ take_list count (drop from.number (times image.now.words.now)) ++ drop count out.old }
{
    let mut w = from;
    for i in 0..count {
        let t = take(image, w);
        out[i] = t.value;
        w = t.walk;
    }
}

// How many of m values from the number k on go into so many words.
pub fn how_many(m: usize, k: usize, room: usize) -> usize
    ensures { result ≡ min room (m - k) }
{
    m.saturating_sub(k).min(room)
}

// The values from the number k on, of an opened image; how many were written.
pub fn read_from_opened(image: &Image, k: usize, out: &mut [u64]) -> usize
    ensures { result ≡ length (read_out (times image.now.words.now) k (length out.old)) × (out.new ≡ filled (times image.now.words.now) k out.old) }
{
    let count = how_many(image.parts.num_pushed as usize, k, out.len());
    let from = begin(image, k);
    take_all(image, from, count, &mut *out);
    count
}

// The values from the number k on; how many were written. The later words stay.
pub fn read_from(image: &[u64], k: usize, out: &mut [u64]) -> Result<usize, Refusal>
    ensures { leaves (of_result result) out.new ≡ read_from_of image.now k out.old }
{
    let image = Image::open(image)?;
    Ok(read_from_opened(&image, k, &mut *out))
}
