// Writing the record of a bit vector, whose values are the places of its ones.
//
// One pass counts the ones, and one files the places. In a buffer below the limit (document 02 (vii)) one for each index finds before what goes to its overflow
// (`measure`). So every refusal is decided before the first word is written.
ghost use Rattle.std.specs.Prelude.{◌≡◌, false, cond, ◌++◌, ◌<◌, leb, length, drop};
ghost use Rattle.errors.specs.Answer.{leaves, passing, of_result};
ghost use Rattle.darray_positions.specs.Index.{blocks, before};
ghost use Rattle.elias_fano_words.specs.Times.{last_of};
ghost use Rattle.elias_fano_from_bits.specs.Building.{Countable, positions_of, Sizable, OnesTaken, NextTaken, Writing, Zeroed, filed_ones, Ready, Tests, Counted};
ghost use Rattle.elias_fano_from_bits.specs.FromBits.{ones_of, bits_image, ones_test, bits_written, from_bits_of};

use crate::measure::overflow_of;
use bit_vectors::unary::{Unary, next_within, walk_from};
use bit_words::{checked, fill};
use darray_positions::scan::count_positions;
use elias_fano::builder::{Builder, file};
use elias_fano::finish::write_image;
use elias_fano_words::sizes::{MAX_VALS, Sizes, image_len, limit_of, of_record};
use errors::Refusal;

// What nothing stands against: how many ones there are, and the sizes of their record.
#[derive(Clone, Copy)]
struct Job {
    ones: usize,
    sizes: Sizes,
}

// The place of a one, and the walk over those after it.
#[derive(Clone, Copy)]
struct One {
    place: usize,
    rest: Unary,
}

// How many zeros of the high bits go to the overflow, if there is to be an index over them.
fn zeros_overflow(words: &[u64], len: usize, n: usize, s: Sizes, rank: bool) -> usize
    requires { Sizable words.now len n s }
    ensures { result ≡ cond rank (before (positions_of words.now len false) (blocks (positions_of words.now len false))) 0 }
{
    if rank {
        return overflow_of(words, len, s.low_len, false, s.high_len - n);
    }
    0
}

// How many words the image of the places has.
fn measured_len(words: &[u64], len: usize, n: usize, s: Sizes, rank: bool) -> usize
    requires { Sizable words.now len n s }
    ensures { result ≡ length (bits_image words.now len rank) }
{
    let ones = overflow_of(words, len, s.low_len, true, n);
    let zeros = zeros_overflow(words, len, n, s, rank);
    image_len(s, n, rank, ones, zeros)
}

// Whether it has room in so many words. Where they are as many as the limit, nothing is measured.
fn has_room(words: &[u64], len: usize, n: usize, s: Sizes, rank: bool, room: usize) -> bool
    requires { Sizable words.now len n s }
    ensures { result ≡ leb (length (bits_image words.now len rank)) room }
{
    if limit_of(s, n, rank) <= room {
        return true;
    }
    measured_len(words, len, n, s, rank) <= room
}

// The next one, which there is: neither 0 is ever taken.
fn take_one(words: &[u64], len: usize, i: usize, w: Unary) -> One
    requires { OnesTaken words.now len i w × (i < length (ones_of words.now len)) }
    ensures { NextTaken words.now len i result }
{
    let s = next_within(words, len, w);
    One {
        place: s.place.unwrap_or(None).unwrap_or(0),
        rest: s.walk,
    }
}

// Files the places of the n ones, one after the other, into words that are zeroed for them; the last of them.
fn file_all(words: &[u64], len: usize, n: usize, s: Sizes, buffer: &mut [u64]) -> u64
    requires { Writing words.now len n s (length buffer.old) × Zeroed words.now len buffer.old }
    ensures { (buffer.new ≡ filed_ones words.now len buffer.old) × (result ≡ last_of (ones_of words.now len)) }
{
    let mut w = walk_from(words, 0);
    let mut last: u64 = 0;
    for i in 0..n {
        let b = Builder {
            universe: len as u64,
            num_vals: n as u64,
            num_pushed: i as u64,
            last,
        };
        let one = take_one(words, len, i, w);
        w = one.rest;
        last = one.place as u64;
        file(b, last, s, &mut *buffer);
    }
    last
}

// Zeroes the words of a start, and files the places into them.
fn file_ones(words: &[u64], len: usize, n: usize, s: Sizes, buffer: &mut [u64]) -> u64
    requires { Writing words.now len n s (length buffer.old) }
    ensures { (buffer.new ≡ filed_ones words.now len buffer.old) × (result ≡ last_of (ones_of words.now len)) }
{
    fill(&mut *buffer, s.start_len, 0);
    file_all(words, len, n, s, &mut *buffer)
}

// Writes the image. How many words it has comes back.
fn write(words: &[u64], len: usize, rank: bool, j: Job, buffer: &mut [u64]) -> usize
    requires { Ready words.now len rank (length buffer.old) j }
    ensures { (buffer.new ≡ bits_image words.now len rank ++ drop (length (bits_image words.now len rank)) buffer.old) × (result ≡ length (bits_image words.now len rank)) }
{
    let n = j.ones as u64;
    let s = j.sizes;
    let last = file_ones(words, len, j.ones, s, &mut *buffer);
    let b = Builder {
        universe: len as u64,
        num_vals: n,
        num_pushed: n,
        last,
    };
    write_image(&mut *buffer, b, rank, s)
}

// The tests of the room for the image of n ones.
fn test_room(words: &[u64], len: usize, n: usize, rank: bool, room: usize) -> Result<Job, Refusal>
    requires { Countable words.now len × (n ≡ length (ones_of words.now len)) }
    ensures { Tests words.now len rank room result }
{
    let s = of_record(len as u64, n as u64);
    if !has_room(words, len, n, s, rank, room) {
        return Err(Refusal::ShortBuffer);
    }
    Ok(Job { ones: n, sizes: s })
}

// The tests of n ones, with so many words lent.
fn test_ones(words: &[u64], len: usize, n: usize, rank: bool, room: usize) -> Result<Job, Refusal>
    requires { Counted words.now len n }
    ensures { Tests words.now len rank room result }
{
    if n as u64 > MAX_VALS {
        return Err(Refusal::TooMany);
    }
    test_room(words, len, n, rank, room)
}

// Writes the record of the places of n ones to the front of the buffer, and leaves its later words. The answer is how many words it has. The
// universe is the length, and as many values are declared as there are ones.
pub fn from_ones(
    words: &[u64],
    len: usize,
    n: usize,
    rank: bool,
    buffer: &mut [u64],
) -> Result<usize, Refusal>
    requires { Counted words.now len n }
    ensures { leaves (of_result result) buffer.new ≡ passing (ones_test words.now len rank (length buffer.old)) buffer.old (bits_written words.now len rank buffer.old) }
{
    let j = test_ones(words, len, n, rank, buffer.len())?;
    Ok(write(words, len, rank, j, &mut *buffer))
}

// The same of bits as they are handed in: without a one there is no record of them.
pub fn from_bits(
    words: &[u64],
    len: usize,
    rank: bool,
    buffer: &mut [u64],
) -> Result<usize, Refusal>
    ensures { leaves (of_result result) buffer.new ≡ from_bits_of words.now len rank buffer.old }
{
    checked(words, len)?;
    if len == 0 {
        return Err(Refusal::NoBits);
    }
    let n = count_positions(words, len, true);
    if n == 0 {
        return Err(Refusal::NoOnes);
    }
    from_ones(words, len, n, rank, &mut *buffer)
}
