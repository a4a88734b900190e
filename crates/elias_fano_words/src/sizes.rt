// The sizes of a record, from its universe and its declared count, and of its image. These are inner: they demand a count from 1 to 16,777,216, or sizes of
// such a record.
ghost use Rattle.std.specs.Prelude.{◌≡◌, cond, ℕ, ◌*◌, ◌^◌, ◌<◌, ◌≤◌};
ghost use Rattle.elias_fano_words.specs.Sizes.{low_len, sizes_of, index_len, image_len, limit};

use bit_words::words_for;
use broadword::msb;
use darray_positions::scan::{BLOCK_LEN, SUBBLOCK_LEN};

// The most values that a record may declare.
pub const MAX_VALS: u64 = 16_777_216;

// A position in an overflow list has as many places of its own, at least.
const OVERFLOW_PLACES: usize = 64;

// The sizes that the calls share, and the word at which the low bits begin.
#[derive(Clone, Copy)]
pub struct Sizes {
    pub low_len: usize,
    pub high_len: usize,
    pub low_at: usize,
    pub start_len: usize,
}

// How many low bits of a value stand apart from its high bits: the place of the highest one of universe / num_vals, or 0.
pub fn low_len(universe: u64, num_vals: u64) -> usize
    requires { 0 < num_vals }
    ensures { result ≡ low_len universe num_vals }
{
    msb(universe / num_vals).unwrap_or(0)
}

// How many high bits there are, and how many words a new record zeroes: the header, the high words, and the low words of as many values
// as are declared.
pub fn of_record(universe: u64, num_vals: u64) -> Sizes
    requires { (0 < num_vals) × (num_vals ≤ 16777216) }
    ensures { result ≡ sizes_of universe num_vals }
{
    let low = low_len(universe, num_vals);
    let high = num_vals as usize + 2 + (universe >> low) as usize;
    let low_at = 6 + words_for(high);
    Sizes {
        low_len: low,
        high_len: high,
        low_at,
        start_len: low_at + words_for(num_vals as usize * low),
    }
}

// How many words an index over so many positions has, of which `overflow` are in the overflow list.
pub fn index_len(positions: usize, overflow: usize) -> usize
    requires { (positions < 2 ^ 32) × (overflow < 2 ^ 62) }
    ensures { result ≡ index_len positions overflow }
{
    positions.div_ceil(BLOCK_LEN) + positions.div_ceil(SUBBLOCK_LEN).div_ceil(4) + overflow
}

// The same of an index that is there with `rank` only.
pub fn index_len_if(rank: bool, positions: usize, overflow: usize) -> usize
    requires { (positions < 2 ^ 32) × (overflow < 2 ^ 62) }
    ensures { result ≡ cond rank (index_len positions overflow) 0 }
{
    if rank {
        index_len(positions, overflow)
    } else {
        0
    }
}

// How many words the image of m values has, of which so many ones and zeros are in the overflow lists.
pub fn image_len(s: Sizes, m: usize, rank: bool, ones: usize, zeros: usize) -> usize
    requires { (s.low_at < 2 ^ 32) × (m * s.low_len < 2 ^ 32) × (s.high_len < 2 ^ 32) × (m ≤ s.high_len) × (ones < 2 ^ 32) × (zeros < 2 ^ 32) }
    ensures { (u n : ℕ) → s ≡ sizes_of u n → result ≡ image_len u n m rank ones zeros }
{
    s.low_at
        + words_for(m * s.low_len)
        + index_len(m, ones)
        + index_len_if(rank, s.high_len - m, zeros)
}

// How many words are enough for every image of up to n values (document 02 (vii)).
pub fn limit_of(s: Sizes, n: usize, rank: bool) -> usize
    requires { (s.start_len < 2 ^ 32) × (s.high_len < 2 ^ 32) × (n < 2 ^ 32) }
    ensures { (u : ℕ) → s ≡ sizes_of u n → result ≡ limit u n rank }
{
    let overflow = s.high_len / OVERFLOW_PLACES;
    s.start_len + index_len(n, overflow) + index_len_if(rank, s.high_len, overflow)
}
