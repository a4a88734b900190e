// Finishing a record: its image is written over the words that hold its bits. These are inner: they demand bits that
// hold nothing but times in order. The bits stay where they stand; the indexes follow the low words, of as many values as were pushed, and the header is written last.
//
// Each index is written in one pass. Only in words below the limit of the settings (document 02 (vii)) the overflow of both is counted before, since a call that is
// refused writes nothing.
ghost use Rattle.std.specs.Prelude.{◌≡◌, true, false, cond, ◌∷◌, ◌++◌, ◌+◌, ◌-◌, ◌≤◌, leb, length, take, drop};
ghost use Rattle.broadword.specs.Fields.{flag};
ghost use Rattle.bit_words.specs.Vector.{words_for};
ghost use Rattle.darray_positions.specs.Index.{blocks, before};
ghost use Rattle.darray_positions.specs.Positions.{positions};
ghost use Rattle.darray.specs.Sizes.{sizes_by, Writable};
ghost use Rattle.elias_fano_words.specs.Sizes.{sizes_of};
ghost use Rattle.elias_fano.specs.Finishing.{Measurable, zeros_words, Holding, Finishable};
ghost use Rattle.elias_fano.specs.Steps.{image_of, finished_words};

use crate::builder::Builder;
use bit_words::words_for;
use darray::inner::{measure, write_within};
use elias_fano_words::sizes::{Sizes, image_len, index_len, limit_of};

// How many of the ones or the zeros go to the overflow of their index.
fn overflow_over(words: &[u64], len: usize, over_one: bool) -> usize
    requires { Measurable words.now len }
    ensures { result ≡ before (positions over_one words.now len) (blocks (positions over_one words.now len)) }
{
    measure(words, len, over_one).unwrap().overflow
}

// How many of the zeros do, if there is to be an index over them.
fn zeros_overflow(words: &[u64], len: usize, rank: bool) -> usize
    requires { Measurable words.now len }
    ensures { result ≡ cond rank (before (positions false words.now len) (blocks (positions false words.now len))) 0 }
{
    if rank {
        return overflow_over(words, len, false);
    }
    0
}

// How many words the image has of the values that the words hold.
fn measured_len(words: &[u64], b: Builder, rank: bool, s: Sizes) -> usize
    requires { Holding b words.now × (s ≡ sizes_of b.universe b.num_vals) }
    ensures { result ≡ length (image_of b rank words.now) }
{
    let low_at = s.low_at;
    let ones = overflow_over(&words[6..low_at], s.high_len, true);
    let zeros = zeros_overflow(&words[6..low_at], s.high_len, rank);
    image_len(s, b.num_pushed as usize, rank, ones, zeros)
}

// Whether that image has room in the words. Where they are as many as the limit, nothing is measured.
pub fn has_room(words: &[u64], b: Builder, rank: bool, s: Sizes) -> bool
    requires { Holding b words.now × (s ≡ sizes_of b.universe b.num_vals) }
    ensures { result ≡ leb (length (image_of b rank words.now)) (length words.now) }
{
    if limit_of(s, b.num_vals as usize, rank) <= words.len() {
        return true;
    }
    measured_len(words, b, rank, s) <= words.len()
}

// Writes the six words of the header.
fn write_header(buffer: &mut [u64], b: Builder, rank: bool, ones: usize, zeros: usize)
    requires { 6 ≤ length buffer.old }
    ensures { buffer.new ≡ b.universe ∷ b.num_vals ∷ b.num_pushed ∷ flag rank ∷ ones ∷ zeros ∷ drop 6 buffer.old }
{
    buffer[0] = b.universe;
    buffer[1] = b.num_vals;
    buffer[2] = b.num_pushed;
    buffer[3] = rank as u64;
    buffer[4] = ones as u64;
    buffer[5] = zeros as u64;
}

// Writes the index over the n zeros of the high bits, if there is to be one. How many of them are in its overflow list comes back.
fn write_zeros(buffer: &mut [u64], len: usize, rank: bool, n: usize, at: usize) -> usize
    requires { (6 + words_for len ≤ at) × (at ≤ length buffer.old) × (rank ≡ true → Writable (positions false (take (words_for len) (drop 6 buffer.old)) len) len (length (take (words_for len) (drop 6 buffer.old))) (sizes_by n 0) (length buffer.old - at)) }
    ensures { (buffer.new ≡ take at buffer.old ++ (zeros_words rank (take (words_for len) (drop 6 buffer.old)) len ++ drop (length (zeros_words rank (take (words_for len) (drop 6 buffer.old)) len)) (drop at buffer.old))) × (result ≡ cond rank (before (positions false (take (words_for len) (drop 6 buffer.old)) len) (blocks (positions false (take (words_for len) (drop 6 buffer.old)) len))) 0) }
{
    if !rank {
        return 0;
    }
    write_within(&mut *buffer, 6, len, false, n, at)
}

// Writes the image of the times that the words hold. They become it: the bits stay where they stand. How many words it has comes back.
pub fn write_image(buffer: &mut [u64], b: Builder, rank: bool, s: Sizes) -> usize
    requires { Finishable b rank s buffer.old }
    ensures { (buffer.new ≡ finished_words b rank buffer.old) × (result ≡ length (image_of b rank buffer.old)) }
{
    let m = b.num_pushed as usize;
    let len = s.high_len;
    let ones_at = s.low_at + words_for(m * s.low_len);
    let ones = write_within(&mut *buffer, 6, len, true, m, ones_at);
    let zeros_at = ones_at + index_len(m, ones);
    let zeros = write_zeros(&mut *buffer, len, rank, len - m, zeros_at);
    write_header(&mut *buffer, b, rank, ones, zeros);
    image_len(s, m, rank, ones, zeros)
}
