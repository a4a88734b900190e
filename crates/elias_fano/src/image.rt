// Reading an image. Every public query first decides whether the image is one that some run writes.
ghost use Rattle.std.specs.Prelude.{true, cond, ◌≡◌, ◌-◌, ◌^◌, ◌≤◌, ◌<◌, get_or};
ghost use Rattle.errors.specs.Answer.{of_option, of_optional};
ghost use Rattle.darray.specs.Pending.{Decides};
ghost use Rattle.elias_fano_words.specs.Sizes.{index_len};
ghost use Rattle.elias_fano_words.specs.Times.{holds, holds_if};
ghost use Rattle.elias_fano.specs.Accept.{universe as universe_of, declared, pushed, parts_by, parts_of, no_parts, times, of_opened, open_if, open_of};
ghost use Rattle.elias_fano.specs.Ask.{Select, asked, query};
ghost use Rattle.elias_fano.specs.Opening.{Counts, Limits, Complete, Headed, Heads, bits_in, Indexes, OneAt};

use crate::opened::Image;
use bit_words::words_for;
use darray::inner::is_index;
use darray::select::select_within;
use elias_fano_words::check::{check, low_at};
use elias_fano_words::sizes::{MAX_VALS, index_len, index_len_if, of_record};
use errors::Refusal;

// The header's numbers, and where the parts of an image stand: the high words from the word 6 on, the low words, the index over the ones and, with
// `rank`, that over the zeros.
#[derive(Clone, Copy)]
pub struct Parts {
    pub universe: u64,
    pub num_vals: u64,
    pub num_pushed: u64,
    pub low_len: usize,
    pub high_len: usize,
    pub low_at: usize,
    pub ones_at: usize,
    pub zeros_at: usize,
    // A flag, as `parts_of` has it. Last, since a copy of what follows it would part words in two.
    pub rank: bool,
}

// Where the parts stand, by the numbers of a header in their limits.
fn parts_of(universe: u64, num_vals: u64, num_pushed: u64, rank: bool, overflow: usize) -> Parts
    requires { (0 < num_vals) × (num_vals ≤ 16777216) × (num_pushed ≤ num_vals) × (overflow < 2 ^ 62) }
    ensures { result ≡ parts_by universe num_vals num_pushed rank overflow }
{
    let s = of_record(universe, num_vals);
    let m = num_pushed as usize;
    let low_at = 6 + words_for(s.high_len);
    let ones_at = low_at + words_for(m * s.low_len);
    Parts {
        universe,
        num_vals,
        num_pushed,
        rank,
        low_len: s.low_len,
        high_len: s.high_len,
        low_at,
        ones_at,
        zeros_at: ones_at + index_len(m, overflow),
    }
}

// The parts of no words. (No Option around the parts: `sparse_open` of the sparse vector names these, and so does the opening of no items.)
pub fn no_parts() -> Parts
    ensures { result ≡ no_parts }
{
    Parts {
        universe: 0,
        num_vals: 0,
        num_pushed: 0,
        low_len: 0,
        high_len: 0,
        low_at: 0,
        ones_at: 0,
        zeros_at: 0,
        rank: false,
    }
}

// How many words the index over the zeros has.
fn zeros_len(p: Parts, overflow: usize) -> usize
    requires { (p.high_len < 2 ^ 32) × (p.num_pushed ≤ p.high_len) × (overflow < 2 ^ 62) }
    ensures { result ≡ cond p.rank (index_len (p.high_len - p.num_pushed) overflow) 0 }
{
    index_len_if(p.rank, p.high_len - p.num_pushed as usize, overflow)
}

// Whether the counts of a header and its choice of a rank index are in their limits.
fn are_counts(num_vals: u64, num_pushed: u64, choice: u64) -> bool
    ensures { Decides result (Counts num_vals num_pushed choice) }
{
    if num_vals == 0 {
        return false;
    }
    if num_vals > MAX_VALS {
        return false;
    }
    if num_pushed > num_vals {
        return false;
    }
    choice <= 1
}

// Whether the numbers of a header are in their limits: no overflow list is longer than the image.
fn in_limits(image: &[u64]) -> bool
    ensures { Decides result (Limits image.now) }
{
    let len = image.len();
    if len < 6 {
        return false;
    }
    if !are_counts(image[1], image[2], image[3]) {
        return false;
    }
    if image[4] > len as u64 {
        return false;
    }
    image[5] <= len as u64
}

// The parts of a header in its limits.
fn parts_in(image: &[u64]) -> Parts
    requires { Limits image.now }
    ensures { result ≡ parts_of image.now }
{
    parts_of(
        image[0],
        image[1],
        image[2],
        image[3] == 1,
        image[4] as usize,
    )
}

// Whether the parts give the image's length. No sum wraps, however large the numbers are.
fn is_complete(image: &[u64], p: Parts) -> bool
    requires { Limits image.now × (p ≡ parts_of image.now) }
    ensures { Decides result (Complete image.now) }
{
    let zeros = image[5] as usize;
    if p.zeros_at + zeros_len(p, zeros) != image.len() {
        return false;
    }
    if p.rank {
        return true;
    }
    zeros == 0
}

// The header, if its numbers are in their limits and give the image's length.
fn read_header(image: &[u64]) -> Option<Parts>
    ensures { Heads image.now result }
{
    if !in_limits(image) {
        return None;
    }
    let p = parts_in(image);
    if !is_complete(image, p) {
        return None;
    }
    Some(p)
}

// Whether the high and the low words hold nothing but the values, in order, and with `strict` none twice.
fn holds_values(image: &[u64], p: Parts, strict: bool) -> bool
    requires { (p ≡ parts_of image.now) × Headed image.now }
    ensures { result ≡ holds_if (universe_of image.now) (declared image.now) strict (pushed image.now) (bits_in image.now) }
{
    let ones_at = p.ones_at;
    let last = check(
        &image[6..ones_at],
        p.universe,
        p.num_vals,
        p.num_pushed,
        p.low_len,
        p.high_len,
        strict,
    );
    last.is_some()
}

// Whether the rest of the image is the indexes of its high bits. How many positions each has is known.
fn has_indexes(image: &[u64], p: Parts) -> bool
    requires { (p ≡ parts_of image.now) × Headed image.now × (holds (universe_of image.now) (declared image.now) (pushed image.now) (bits_in image.now) ≡ true) }
    ensures { Decides result (Indexes image.now) }
{
    let low_at = p.low_at;
    let ones_at = p.ones_at;
    let zeros_at = p.zeros_at;
    let m = p.num_pushed as usize;
    let high = &image[6..low_at];
    if !is_index(high, p.high_len, true, m, &image[ones_at..zeros_at]) {
        return false;
    }
    if p.rank {
        return is_index(high, p.high_len, false, p.high_len - m, &image[zeros_at..]);
    }
    true
}

// Decides whether an image is one that some run writes and, with `strict`, repeats no value, in time linear in its words, and tells where its parts stand.
// (`strict` is a flag, as the definition `open_if` has it.)
pub fn open_if(image: &[u64], strict: bool) -> Result<Parts, Refusal>
    ensures { of_opened result ≡ open_if strict image.now }
{
    let Some(p) = read_header(image) else {
        return Err(Refusal::Invalid);
    };
    if !holds_values(image, p, strict) {
        return Err(Refusal::Invalid);
    }
    if !has_indexes(image, p) {
        return Err(Refusal::Invalid);
    }
    Ok(p)
}

// The same of a record, which may repeat values (document 01: opening). (One call of the above, for the name that document 01 and docs/ have.)
pub fn open(image: &[u64]) -> Result<Parts, Refusal>
    ensures { of_opened result ≡ open_of image.now }
{
    open_if(image, false)
}

// The value with the number k, whose one stands at `place`.
pub fn value_at(image: &Image, k: usize, place: usize) -> u64
    requires { OneAt image.now.words.now image.now.parts k place }
    ensures { result ≡ get_or (times image.now.words.now) k 0 }
{
    let start = image.parts.low_at;
    let end = image.parts.ones_at;
    (((place - k) as u64) << image.parts.low_len)
        + low_at(&image.words[start..end], image.parts.low_len, k)
}

// Where the one of the value with the number k stands, by the index: constant time but for the words between every 32nd one.
pub fn one_at(image: &Image, k: usize) -> usize
    requires { k < image.now.parts.num_pushed }
    ensures { OneAt image.now.words.now image.now.parts k result }
{
    let start = image.parts.low_at;
    let ones_at = image.parts.ones_at;
    let zeros_at = image.parts.zeros_at;
    select_within(
        &image.words[6..start],
        image.parts.high_len,
        true,
        &image.words[ones_at..zeros_at],
        image.parts.num_pushed as usize,
        k,
    )
}

// The value with the number k, which there is.
pub fn value_of(image: &Image, k: usize) -> u64
    requires { k < image.now.parts.num_pushed }
    ensures { result ≡ get_or (times image.now.words.now) k 0 }
{
    value_at(image, k, one_at(image, k))
}

// The value with the number k, of an opened image.
pub fn select_opened(image: &Image, k: usize) -> Option<u64>
    ensures { of_option result ≡ asked image.now.words.now (Select k) }
{
    if k >= image.parts.num_pushed as usize {
        return None;
    }
    Some(value_of(image, k))
}

// The value with the number k.
pub fn select(image: &[u64], k: usize) -> Result<Option<u64>, Refusal>
    ensures { of_optional result ≡ query image.now (Select k) }
{
    let image = Image::open(image)?;
    Ok(select_opened(&image, k))
}
