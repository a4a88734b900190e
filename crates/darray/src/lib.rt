// Constant-time select on bit vectors by an index over their ones or their zeros.
//
// `select1` and `select0` are inner, as `select` is: they demand the index of the bits over the ones, or over the zeros.
#![tactic(auto)]

ghost use Rattle.std.specs.Prelude.{◌≡◌, true, false};
ghost use Rattle.errors.specs.Answer.{leaves, of_bit, of_optional};
ghost use Rattle.broadword.specs.Places.{select as select_bit};
ghost use Rattle.bit_words.specs.Vector.{bit_over};
ghost use Rattle.bit_vectors.specs.Queries.{access_of};
ghost use Rattle.darray.specs.Queries.{select_built_of};
ghost use Rattle.darray.specs.Select.{Indexed};

pub mod inner;
mod pending;
pub mod select;

use bit_vectors::bit_vector;
use errors::Refusal;

// The bit at pos. (Under the name that the Rust's `DArray` has it by.)
pub fn access(words: &[u64], len: usize, pos: usize) -> Result<Option<bool>, Refusal>
    ensures { of_bit result ≡ access_of words.now len pos }
{
    bit_vector::access(words, len, pos)
}

// The one that k ones stand before, by the index over the ones, which has as many positions.
pub fn select1(
    words: &[u64],
    len: usize,
    index: &[u64],
    positions: usize,
    k: usize,
) -> Option<usize>
    requires { Indexed words.now len true index.now positions }
    ensures { result ≡ select_bit (bit_over true words.now) len k }
{
    select::select(words, len, true, index, positions, k)
}

// The zero that k zeros stand before, by the index over the zeros. (A name for each, as the Rust has them, over one function.)
pub fn select0(
    words: &[u64],
    len: usize,
    index: &[u64],
    positions: usize,
    k: usize,
) -> Option<usize>
    requires { Indexed words.now len false index.now positions }
    ensures { result ≡ select_bit (bit_over false words.now) len k }
{
    select::select(words, len, false, index, positions, k)
}

// Builds the index into the lent words and selects through it.
pub fn select_built(
    words: &[u64],
    len: usize,
    over_one: bool,
    out: &mut [u64],
    k: usize,
) -> Result<Option<usize>, Refusal>
    ensures { leaves (of_optional result) out.new ≡ select_built_of words.now len over_one out.old k }
{
    let n = inner::build(words, len, over_one, &mut *out)?;
    let s = inner::measure(words, len, over_one)?;
    Ok(select::select(words, len, over_one, &out[..n], s.positions, k))
}
