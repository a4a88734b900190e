// The select index over the ones or the zeros of a bit vector, as words: the entries of its blocks (block_inventory), the
// distances of every 32nd position four to a word (subblock_inventory), and the positions of the blocks that are too wide for
// distances of 16 bits (overflow_positions).
//
// Each call takes time linear in the words, and looks for no position between every 32nd but in a block that overflows, or nearly. None needs
// more memory than one block's positions.
//
// `write_within` and `is_index` are inner: both demand how many positions the bits have, the first also room for the index.
ghost use Rattle.std.specs.Prelude.{◌≡◌, ◌++◌, ◌+◌, ◌-◌, ◌/◌, ◌^◌, ◌≤◌, ◌<◌, length, take, drop};
ghost use Rattle.errors.specs.Answer.{leaves, of_result, of_truth};
ghost use Rattle.broadword.specs.Bits.{count};
ghost use Rattle.bit_words.specs.Vector.{words_for, bit_over};
ghost use Rattle.darray_positions.specs.Positions.{positions};
ghost use Rattle.darray_positions.specs.Index.{blocks, before, index_words};
ghost use Rattle.darray.specs.Pending.{Decides};
ghost use Rattle.darray.specs.Queries.{of_measured, measure_of, build_index_of, validate_of};
ghost use Rattle.darray_positions.specs.Scan.{FullBlocks};
ghost use Rattle.darray.specs.Sizes.{sizes_by, Sized, Writable, Comparable};

use crate::pending::Pending;
use bit_words::{checked, words_for};
use darray_positions::scan::{
    BLOCK_LEN, Cursor, Full, SUBBLOCK_LEN, block_size, count_positions, ends, full_blocks, spilled,
    tail_positions,
};
use errors::Refusal;

// No memory holds as many bits.
const MAX_LEN: usize = 1 << 63;

// How many positions are indexed, and how many entries, distances and overflow positions the index has.
#[derive(Clone, Copy)]
pub struct Sizes {
    pub positions: usize,
    pub entries: usize,
    pub lanes: usize,
    pub overflow: usize,
}

// The sizes of the index over the ones or the zeros of a bit vector.
pub fn measure(words: &[u64], len: usize, over_one: bool) -> Result<Sizes, Refusal>
    ensures { of_measured result ≡ measure_of words.now len over_one }
{
    checked(words, len)?;
    if len >= MAX_LEN {
        return Err(Refusal::TooMany);
    }
    Ok(sizes_of(words, len, over_one))
}

// Writes the index over the ones or the zeros of a bit vector to the front of `out`, and leaves its later words.
pub fn build(words: &[u64], len: usize, over_one: bool, out: &mut [u64]) -> Result<usize, Refusal>
    ensures { leaves (of_result result) out.new ≡ build_index_of words.now len over_one out.old }
{
    checked(words, len)?;
    if len >= MAX_LEN {
        return Err(Refusal::TooMany);
    }
    let s = sizes_of(words, len, over_one);
    let n = total(s);
    if out.len() < n {
        return Err(Refusal::ShortBuffer);
    }
    write(words, len, over_one, s, &mut *out);
    Ok(n)
}

// Whether an index is that over the ones or the zeros of a bit vector.
pub fn validate(words: &[u64], len: usize, over_one: bool, index: &[u64]) -> Result<bool, Refusal>
    ensures { of_truth result ≡ validate_of words.now len over_one index.now }
{
    checked(words, len)?;
    if len >= MAX_LEN {
        return Err(Refusal::TooMany);
    }
    let n = count_positions(words, len, over_one);
    Ok(is_index(words, len, over_one, n, index))
}

// How many positions go to the overflow in all, where it is known of the full blocks. There are n positions.
fn overflow_of(words: &[u64], len: usize, over_one: bool, n: usize, full: Full) -> usize
    requires { (words_for len ≤ length words.now) × (len < 2 ^ 63) × (n ≡ count (bit_over over_one words.now) len) × FullBlocks over_one words.now len full }
    ensures { result ≡ before (positions over_one words.now len) ((n + 1023) / 1024) }
{
    let mut overflow = full.overflow;
    let mut at = full.from;
    for j in full.blocks..n.div_ceil(BLOCK_LEN) {
        let s = ends(words, over_one, n, j, at);
        overflow += spilled(s.first, s.last, block_size(n, j));
        at = s.next;
    }
    overflow
}

// The sizes of an index over n positions, of which so many go to the overflow.
fn sizes_by(n: usize, overflow: usize) -> Sizes
    requires { n < 2 ^ 63 }
    ensures { result ≡ sizes_by n overflow }
{
    Sizes {
        positions: n,
        entries: n.div_ceil(BLOCK_LEN),
        lanes: n.div_ceil(SUBBLOCK_LEN),
        overflow,
    }
}

// The sizes of the index. The positions are counted while the ends of the full blocks are searched.
fn sizes_of(words: &[u64], len: usize, over_one: bool) -> Sizes
    requires { (words_for len ≤ length words.now) × (len < 2 ^ 63) }
    ensures { Sized (positions over_one words.now len) result }
{
    let full = full_blocks(words, len, over_one);
    let n = full.positions + tail_positions(words, len, over_one);
    sizes_by(n, overflow_of(words, len, over_one, n, full))
}

// How many words the index has.
fn total(s: Sizes) -> usize
    requires { (s.lanes + 3 < 2 ^ 64) × (s.entries + (s.lanes + 3) / 4 + s.overflow < 2 ^ 64) }
    ensures { result ≡ s.entries + (s.lanes + 3) / 4 + s.overflow }
{
    s.entries + s.lanes.div_ceil(4) + s.overflow
}

// Writes the index of the bits, whose sizes are s, block by block. (`len` says in the contract which bits those are. Of the sizes the overflow is not
// looked at.) How many positions went to the overflow comes back.
fn write(words: &[u64], len: usize, over_one: bool, s: Sizes, out: &mut [u64]) -> usize
    requires { Writable (positions over_one words.now len) len (length words.now) s (length out.old) }
    ensures { (out.new ≡ index_words (positions over_one words.now len) ++ drop (length (index_words (positions over_one words.now len))) out.old) × (result ≡ before (positions over_one words.now len) (blocks (positions over_one words.now len))) }
{
    let n = s.positions;
    let mut p = Pending::empty();
    let mut from = Cursor { word: 0, before: 0 };
    let mut over: usize = 0;
    for j in 0..s.entries {
        from = p.load(words, over_one, n, j, from);
        over += p.flush(&mut *out, s, j, over);
    }
    over
}

// Writes the index of n positions to the words that hold the bits too, from the place `at` on. The bits are the first len of the words from `first`
// on, and end before that place. How many positions go to the overflow is not known before, and comes back.
pub fn write_within(
    buf: &mut [u64],
    first: usize,
    len: usize,
    over_one: bool,
    n: usize,
    at: usize,
) -> usize
    requires { (first + words_for len ≤ at) × (at ≤ length buf.old) × Writable (positions over_one (take (words_for len) (drop first buf.old)) len) len (length (take (words_for len) (drop first buf.old))) (sizes_by n 0) (length buf.old - at) }
    ensures { (buf.new ≡ take at buf.old ++ (index_words (positions over_one (take (words_for len) (drop first buf.old)) len) ++ drop (length (index_words (positions over_one (take (words_for len) (drop first buf.old)) len))) (drop at buf.old))) × (result ≡ before (positions over_one (take (words_for len) (drop first buf.old)) len) (blocks (positions over_one (take (words_for len) (drop first buf.old)) len))) }
{
    let (front, index) = buf.split_at_mut(at);
    let words = &front[first..first + words_for(len)];
    write(words, len, over_one, sizes_by(n, 0), index)
}

// Whether the words are the index over the ones or the zeros of the bits, which has n positions: block by block, with one block's positions in
// memory. How many go to the overflow is not known before, so the words are never passed.
pub fn is_index(words: &[u64], len: usize, over_one: bool, n: usize, index: &[u64]) -> bool
    requires { (words_for len ≤ length words.now) × (len < 2 ^ 63) × (n ≡ count (bit_over over_one words.now) len) }
    ensures { Decides result (index.now ≡ index_words (positions over_one words.now len)) }
{
    let least = sizes_by(n, 0);
    let fixed = total(least);
    if index.len() < fixed {
        return false;
    }
    let s = Sizes {
        overflow: index.len() - fixed,
        ..least
    };
    matches(words, len, over_one, s, index)
}

// The same for an index of these sizes, of which the number of overflow positions is what the words have room for, and is not known to be right.
fn matches(words: &[u64], len: usize, over_one: bool, s: Sizes, index: &[u64]) -> bool
    requires { Comparable over_one words.now len s (length index.now) }
    ensures { Decides result (index.now ≡ index_words (positions over_one words.now len)) }
{
    let n = s.positions;
    let mut p = Pending::empty();
    let mut at = Cursor { word: 0, before: 0 };
    let mut over: usize = 0;
    for j in 0..s.entries {
        at = p.load(words, over_one, n, j, at);
        let Some(more) = p.compare(index, s, j, over) else {
            return false;
        };
        over += more;
    }
    over == s.overflow
}
