// What goes to the overflow of a record's indexes, from the bits that it is made of: nothing is written to be measured.
//
// With l low bits the k-th one of the record's high bits stands at p / 2^l + k, p being the place of the k-th one of the source; its k-th zero stands at
// k plus the number of ones of the source below (k + 1) × 2^l. So the ends of each block of both indexes are found in one pass over the source.
// All functions are inner: they demand bits with as many ones as a record takes.
ghost use Rattle.std.specs.Prelude.{◌≡◌, true, false, ◌+◌, ◌*◌, ◌^◌, ◌≤◌, ◌<◌, min, length};
ghost use Rattle.bit_words.specs.Vector.{words_for};
ghost use Rattle.darray_positions.specs.Index.{blocks, before};
ghost use Rattle.elias_fano_from_bits.specs.Building.{Countable, low_of, positions_of, Marked, Seekable, Seen};

use bit_words::{WORD_LEN, count_words, find_within, words_for};
use darray_positions::scan::{BLOCK_LEN, block_size, spilled, tail_positions};

// A place of the source, and how many ones stand before it. (A cursor of `darray_positions` is at a word, and this at a bit.)
#[derive(Clone, Copy)]
pub struct Mark {
    pub place: usize,
    pub ones: usize,
}

// A position of the high bits, and the mark in the source that it was found by.
#[derive(Clone, Copy)]
pub struct HighPlace {
    pub at: u64,
    pub mark: Mark,
}

// The mark at the place `to`, from one that is not past it.
fn mark_at(words: &[u64], len: usize, from: Mark, to: usize) -> Mark
    requires { Marked words.now len from × (words_for len ≤ length words.now) × (from.place ≤ to) × (to ≤ len) }
    ensures { Marked words.now len result × (result.place ≡ to) }
{
    let before = from.ones - tail_positions(words, from.place, true);
    let whole = count_words(words, from.place / WORD_LEN, to / WORD_LEN, true);
    Mark {
        place: to,
        ones: before + whole + tail_positions(words, to, true),
    }
}

// Where the places end whose high bits are at most k.
fn bucket_end(len: usize, l: usize, k: usize) -> usize
    requires { l < 64 }
    ensures { result ≡ min ((k + 1) * 2 ^ l) len }
{
    if k < len >> l { (k + 1) << l } else { len }
}

// The one of the high bits with the number k.
fn high_one(words: &[u64], len: usize, l: usize, k: usize, from: Mark) -> HighPlace
    requires { Seekable words.now len true l k from }
    ensures { Seen words.now len true l k result }
{
    let used = words_for(len);
    let place = find_within(words, used, true, from.place, k - from.ones);
    HighPlace {
        at: ((place >> l) + k) as u64,
        mark: Mark { place, ones: k },
    }
}

// The zero of the high bits with the number k.
fn high_zero(words: &[u64], len: usize, l: usize, k: usize, from: Mark) -> HighPlace
    requires { Seekable words.now len false l k from }
    ensures { Seen words.now len false l k result }
{
    let mark = mark_at(words, len, from, bucket_end(len, l, k));
    HighPlace {
        at: (mark.ones + k) as u64,
        mark,
    }
}

// The position of the high bits with the number k. A flag, no closure: the contracts tell by `over_one` which positions are meant.
fn high_place(
    words: &[u64],
    len: usize,
    l: usize,
    over_one: bool,
    k: usize,
    from: Mark,
) -> HighPlace
    requires { Seekable words.now len over_one l k from }
    ensures { Seen words.now len over_one l k result }
{
    if over_one {
        return high_one(words, len, l, k, from);
    }
    high_zero(words, len, l, k, from)
}

// How many of the n positions go to the overflow of the index over the ones or the zeros.
pub fn overflow_of(words: &[u64], len: usize, l: usize, over_one: bool, n: usize) -> usize
    requires { Countable words.now len × (l ≡ low_of words.now len) × (n ≡ length (positions_of words.now len over_one)) }
    ensures { result ≡ before (positions_of words.now len over_one) (blocks (positions_of words.now len over_one)) }
{
    let mut overflow: usize = 0;
    let mut from = Mark { place: 0, ones: 0 };
    for j in 0..n.div_ceil(BLOCK_LEN) {
        let k = BLOCK_LEN * j;
        let size = block_size(n, j);
        let first = high_place(words, len, l, over_one, k, from);
        let last = high_place(words, len, l, over_one, k + (size - 1), first.mark);
        overflow += spilled(first.at, last.at, size);
        from = last.mark;
    }
    overflow
}
