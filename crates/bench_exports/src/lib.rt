// What the bench calls, and nobody else: each function loops over lent words inside Rattle and gives a sum that wraps, so that a driver
// in another language times the calls of the libraries and not the crossing into them.
//
// The functions are proved safe and ending, and that each call's demands are met. Their contracts say nothing of the sums, which the driver
// compares with those of the Rust. A none counts as 64 for a place in a word, and as the length for a place in a bit vector.
#![tactic(auto)]

ghost use Rattle.bit_vectors.specs.Walk.{Walking};
ghost use Rattle.darray.specs.Select.{Indexed};

mod record;
mod windows;

use bit_vectors::bit_vector::{predecessor1, rank1, select1};
use bit_vectors::unary::{Unary, new, next_within};
use broadword::{lsb, msb, popcount, select_in_word};
use darray::inner::build;
use darray::select::select;
use errors::Refusal;

// A place, or what a none counts as.
fn place_or(found: Option<usize>, none: usize) -> u64 {
    found.unwrap_or(none) as u64
}

// The same of a call that may be refused, which counts as 0.
fn answer_or(found: Result<Option<usize>, Refusal>, none: usize) -> u64 {
    place_or(found.unwrap_or(Some(0)), none)
}

// The number of ones of each word.
#[unsafe(no_mangle)]
pub extern "C" fn bench_popcount(words: &[u64]) -> u64 {
    let mut sum: u64 = 0;
    for w in words {
        sum = sum.wrapping_add(popcount(*w) as u64);
    }
    sum
}

// The lowest one of each word.
#[unsafe(no_mangle)]
pub extern "C" fn bench_lsb(words: &[u64]) -> u64 {
    let mut sum: u64 = 0;
    for w in words {
        sum = sum.wrapping_add(place_or(lsb(*w), 64));
    }
    sum
}

// The highest one of each word.
#[unsafe(no_mangle)]
pub extern "C" fn bench_msb(words: &[u64]) -> u64 {
    let mut sum: u64 = 0;
    for w in words {
        sum = sum.wrapping_add(place_or(msb(*w), 64));
    }
    sum
}

// In each word, the one that as many stand before as the second slice says.
#[unsafe(no_mangle)]
pub extern "C" fn bench_select_in_word(words: &[u64], ks: &[usize]) -> u64 {
    let mut sum: u64 = 0;
    for (w, k) in words.iter().zip(ks) {
        sum = sum.wrapping_add(place_or(select_in_word(*w, *k), 64));
    }
    sum
}

// The same, under the name that it had when the table was lent: a C name stays.
#[unsafe(no_mangle)]
pub extern "C" fn bench_select_in_word_by(words: &[u64], ks: &[usize]) -> u64 {
    bench_select_in_word(words, ks)
}

// The ones below each place.
#[unsafe(no_mangle)]
pub extern "C" fn bench_rank1(words: &[u64], len: usize, places: &[usize]) -> u64 {
    let mut sum: u64 = 0;
    for pos in places {
        sum = sum.wrapping_add(answer_or(rank1(words, len, *pos), len));
    }
    sum
}

// The ones that as many stand before, with no index.
#[unsafe(no_mangle)]
pub extern "C" fn bench_select1(words: &[u64], len: usize, ks: &[usize]) -> u64 {
    let mut sum: u64 = 0;
    for k in ks {
        sum = sum.wrapping_add(answer_or(select1(words, len, *k), len));
    }
    sum
}

// The last one at or before each place.
#[unsafe(no_mangle)]
pub extern "C" fn bench_predecessor1(words: &[u64], len: usize, places: &[usize]) -> u64 {
    let mut sum: u64 = 0;
    for pos in places {
        sum = sum.wrapping_add(answer_or(predecessor1(words, len, *pos), len));
    }
    sum
}

// The sum of all places that the walk gives.
fn walk(words: &[u64], len: usize, start: Unary) -> u64
    requires { Walking words.now len start }
{
    let mut w = start;
    let mut sum: u64 = 0;
    loop {
        let s = next_within(words, len, w);
        let Some(p) = s.place.unwrap_or(None) else {
            break;
        };
        sum = sum.wrapping_add(p as u64);
        w = s.walk;
    }
    sum
}

// A walk over all ones.
#[unsafe(no_mangle)]
pub extern "C" fn bench_walk(words: &[u64], len: usize) -> u64 {
    let Ok(w) = new(words, len, 0) else {
        return 0;
    };
    walk(words, len, w)
}

// The index over the ones or the zeros: how many words it has.
#[unsafe(no_mangle)]
pub extern "C" fn bench_build(words: &[u64], len: usize, over_one: bool, out: &mut [u64]) -> u64 {
    build(words, len, over_one, &mut *out).unwrap_or(0) as u64
}

// The ones, or the zeros, that as many stand before, through the index, which is that of these bits.
#[unsafe(no_mangle)]
pub extern "C" fn bench_select(
    words: &[u64],
    len: usize,
    over_one: bool,
    index: &[u64],
    positions: usize,
    ks: &[usize],
) -> u64
    requires { Indexed words.now len over_one index.now positions }
{
    let mut sum: u64 = 0;
    for k in ks {
        sum = sum.wrapping_add(place_or(select(words, len, over_one, index, positions, *k), len));
    }
    sum
}
