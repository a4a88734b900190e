// Opening a vector. Every public question first decides whether the words are an image of such a vector.
ghost use Rattle.std.specs.Prelude.{◌≡◌, ◌&&◌, eqb};
ghost use Rattle.broadword.specs.Fields.{flag};
ghost use Rattle.sarray.specs.Opened.{of_vector, sparse_open};

use elias_fano::image::{Parts, no_parts, open_if};
use errors::Refusal;

// A vector as opening finds it: its length, how many ones it has, the parts of its image, which one of zeros does not have, and its choice.
// (The choice is a flag, as `sparse_open` has it.)
#[derive(Clone, Copy)]
pub struct SArray {
    pub num_bits: usize,
    pub num_ones: usize,
    pub parts: Parts,
    pub has_rank: bool,
}

// Whether the parts are those of a vector of so many bits, with such a choice: every value that is declared is there.
fn is_whole(p: Parts, len: usize, rank: bool) -> bool
    ensures { result ≡ (eqb p.universe len && (eqb (flag p.rank) (flag rank) && eqb p.num_pushed p.num_vals)) }
{
    p.universe == len as u64 && p.rank == rank && p.num_pushed == p.num_vals
}

// Decides whether the words are those of a vector of `len` bits, with an index for rank if `rank` says so, and tells where their parts stand. No words
// are a vector of zeros.
pub fn open(image: &[u64], len: usize, rank: bool) -> Result<SArray, Refusal>
    ensures { of_vector result ≡ sparse_open len rank image.now }
{
    if image.is_empty() {
        return Ok(SArray {
            num_bits: len,
            num_ones: 0,
            parts: no_parts(),
            has_rank: rank,
        });
    }
    let p = open_if(image, true)?;
    if !is_whole(p, len, rank) {
        return Err(Refusal::Invalid);
    }
    Ok(SArray {
        num_bits: len,
        num_ones: p.num_pushed as usize,
        parts: p,
        has_rank: rank,
    })
}
