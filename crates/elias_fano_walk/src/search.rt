// Search for the first of equal values, and for the first that is not below a value: halving, and a walk once 64 or fewer remain.
//
// The ones with every 32nd number are found by the index without a look at the high words. So the halving compares the one with such a number, at its
// middle or next before.
ghost use Rattle.std.specs.Prelude.{◌≡◌, true, ◌-◌, ◌*◌, ◌^◌, ◌≤◌, ◌<◌, length, take as take_list, drop};
ghost use Rattle.errors.specs.Answer.{of_optional};
ghost use Rattle.bit_words.specs.Vector.{bit_over};
ghost use Rattle.darray.specs.Select.{Indexed};
ghost use Rattle.elias_fano.specs.Accept.{times};
ghost use Rattle.elias_fano.specs.Ask.{Binsearch, BinsearchRange, first_index, asked, query};
ghost use Rattle.elias_fano.specs.Opening.{OneAt};
ghost use Rattle.elias_fano_walk.specs.Searching.{Range, HighStart, OnesBefore, HighSection, ScanStart, ScanSection, AllBelow, FirstFrom};
ghost use Rattle.elias_fano_walk.specs.Walking.{WalkOver};

use crate::walk::{Walk, begin_at, ended, take};
use bit_words::{WORD_LEN, window};
use broadword::msb;
use darray::select::select_within;
use darray_positions::scan::SUBBLOCK_LEN;
use elias_fano::image::{one_at, value_of};
use elias_fano::opened::Image;
use errors::Refusal;

const LINEAR_SCAN_THRESHOLD: usize = 64;

// Inside the crate: what is to be scanned, from the number of a value, whose one stands at the place, up to a later number.
#[derive(Clone, Copy)]
struct Section {
    number: usize,
    place: usize,
    end: usize,
}

// Where a scan can start, from a on and below b: the ones before have fewer than `wanted` zeros before them. It calls itself on the part that can hold the
// first that has not fewer: from the number compared on if that one has fewer, else up to it. 64 or fewer are left to the scan.
//
// The part is chosen without a branch, which would be guessed wrong half the time. What it is handed are single words, references to the slices
// among them: so the compiler makes a loop of it.
fn halve_high(
    high: &&[u64],
    len: usize,
    index: &&[u64],
    positions: usize,
    wanted: usize,
    a: usize,
    b: usize,
) -> usize
    requires { Indexed high.now.now len true index.now.now positions × (a < b) × (b ≤ positions) × (b ≤ 2 ^ 32) }
    ensures { HighStart (bit_over true high.now.now) len wanted a b result }
{
    if b - a <= LINEAR_SCAN_THRESHOLD {
        return a;
    }
    let mid = (a + b) / 2;
    let k = mid / SUBBLOCK_LEN * SUBBLOCK_LEN;
    let words = *high;
    let ones = *index;
    let place = select_within(words, len, true, ones, positions, k);
    let below = place - k < wanted;
    let from = if below { k } else { a };
    let to = if below { b } else { k + 1 };
    halve_high(high, len, index, positions, wanted, from, to)
}

// How many ones stand right before the place: 64 if there are as many, or if the place is below 64. (A number and no Option: who asks compares it with a
// number of ones, and 64 is more than that.)
fn ones_before(words: &[u64], place: usize) -> usize
    requires { place ≤ length words.now * 64 }
    ensures { result < 64 → OnesBefore (bit_over true words.now) place result }
{
    if place < WORD_LEN {
        return WORD_LEN;
    }
    match msb(!window(words, words.len(), place - WORD_LEN)) {
        Some(zero) => WORD_LEN - 1 - zero,
        None => WORD_LEN,
    }
}

// The section of the range that can hold the first one with `wanted` zeros before it, by the run of ones up to the one 32 numbers on. If these have as many zeros
// before them the section begins with the run, if they have more it ends before it: so neither a select nor the scan passes over the zeros before
// the run, which can be very many between long runs.
fn high_section(
    high: &[u64],
    len: usize,
    index: &[u64],
    positions: usize,
    wanted: usize,
    a: usize,
    b: usize,
) -> Section
    requires { Indexed high.now len true index.now positions × (a < b) × (b ≤ positions) × (b ≤ 2 ^ 32) }
    ensures { HighSection (bit_over true high.now) len wanted a b result }
{
    let first = select_within(high, len, true, index, positions, a);
    let whole = Section {
        number: a,
        place: first,
        end: b,
    };
    if b - a <= SUBBLOCK_LEN {
        return whole;
    }
    let k = a + SUBBLOCK_LEN;
    let place = select_within(high, len, true, index, positions, k);
    let zeros = place - k;
    if zeros < wanted {
        return whole;
    }
    let ones = ones_before(high, place);
    if SUBBLOCK_LEN <= ones {
        return whole;
    }
    if wanted < zeros {
        return Section {
            number: a,
            place: first,
            end: k - ones,
        };
    }
    Section {
        number: k - ones,
        place: place - ones,
        end: b,
    }
}

// Where a scan for val can start, from a on and below b: the values before are below val. It calls itself on the part that can hold the first val: from the
// number compared on if that value is below val, else up to it.
fn halve_range(image: &Image, a: usize, b: usize, val: u64) -> usize
    requires { Range image.now.parts a b }
    ensures { ScanStart (times image.now.words.now) a b val result }
{
    if b - a <= LINEAR_SCAN_THRESHOLD {
        return a;
    }
    let mid = (a + b) / 2;
    let k = mid / SUBBLOCK_LEN * SUBBLOCK_LEN;
    if value_of(image, k) < val {
        return halve_range(image, k, b, val);
    }
    halve_range(image, a, k + 1, val)
}

// What is to be scanned for val, by the high bits alone, which are the zeros before its one.
fn section_by_high(image: &Image, a: usize, b: usize, val: u64) -> Section
    requires { Range image.now.parts a b }
    ensures { ScanSection image.now.words.now image.now.parts a b val result }
{
    let low_at = image.parts.low_at;
    let ones_at = image.parts.ones_at;
    let zeros_at = image.parts.zeros_at;
    let high = &image.words[6..low_at];
    let index = &image.words[ones_at..zeros_at];
    let len = image.parts.high_len;
    let positions = image.parts.num_pushed as usize;
    let wanted = (val >> image.parts.low_len) as usize;
    let from = halve_high(&high, len, &index, positions, wanted, a, b);
    high_section(high, len, index, positions, wanted, from, b)
}

// The same: by high bits first, so that the halving reads no low word, in a run of equal values too. Where many values with the high bits of val are below
// it, these do not tell, and the rest is halved by whole values.
fn scan_section(image: &Image, a: usize, b: usize, val: u64) -> Section
    requires { Range image.now.parts a b }
    ensures { ScanSection image.now.words.now image.now.parts a b val result }
{
    let section = section_by_high(image, a, b, val);
    let first = section.number;
    let end = section.end;
    if end - first <= SUBBLOCK_LEN {
        return section;
    }
    let next = first + SUBBLOCK_LEN;
    if value_of(image, next) < val {
        let number = halve_range(image, next, end, val);
        let place = one_at(image, number);
        return Section { number, place, end };
    }
    section
}

// The number of the first value of the section that is val. The values do not fall, so it ends at the first that is not below val.
fn scan_range(image: &Image, section: Section, val: u64) -> Result<Option<usize>, Refusal>
    requires { OneAt image.now.words.now image.now.parts section.number section.place × Range image.now.parts section.number section.end }
    ensures { of_optional result ≡ first_index val section.number (take_list (section.end - section.number) (drop section.number (times image.now.words.now))) }
{
    let mut w = begin_at(image, section.number, section.place);
    for i in section.number..section.end {
        let t = take(image, w);
        let x = t.value;
        if x == val {
            return Ok(Some(i));
        }
        if val < x {
            return Ok(None);
        }
        w = t.walk;
    }
    Ok(None)
}

// The walk from the first value on that is not below val; those before `from` are.
fn skip_below(image: &Image, from: Walk, val: u64) -> Walk
    requires { WalkOver image.now.words.now image.now.parts from × (from.number ≤ image.now.parts.num_pushed) × AllBelow (times image.now.words.now) val from.number }
    ensures { WalkOver image.now.words.now image.now.parts result × FirstFrom (times image.now.words.now) val result.number }
{
    let end = image.parts.num_pushed as usize;
    let mut w = from;
    for _n in w.number..end {
        let t = take(image, w);
        if val <= t.value {
            return w;
        }
        w = t.walk;
    }
    w
}

// The walk from the first value on that is not below val, of an opened image: by the halving of the search, and without a rank index.
pub fn begin_from(image: &Image, val: u64) -> Walk
    ensures { WalkOver image.now.words.now image.now.parts result × FirstFrom (times image.now.words.now) val result.number }
{
    let end = image.parts.num_pushed as usize;
    if end == 0 {
        return ended(0);
    }
    let section = scan_section(image, 0, end, val);
    let from = begin_at(image, section.number, section.place);
    skip_below(image, from, val)
}

// The number of the first value that is val, from a on and below b, of an opened image. A range that begins with val needs no search.
pub fn binsearch_range_opened(
    image: &Image,
    a: usize,
    b: usize,
    val: u64,
) -> Result<Option<usize>, Refusal>
    ensures { of_optional result ≡ asked image.now.words.now (BinsearchRange a b val) }
{
    if a >= b {
        return Ok(None);
    }
    if b > image.parts.num_pushed as usize {
        return Err(Refusal::RangeOutOfBounds);
    }
    if value_of(image, a) == val {
        return Ok(Some(a));
    }
    let section = scan_section(image, a, b, val);
    scan_range(image, section, val)
}

// The number of the first value that is val, of an opened image.
pub fn binsearch_opened(image: &Image, val: u64) -> Result<Option<usize>, Refusal>
    ensures { of_optional result ≡ asked image.now.words.now (Binsearch val) }
{
    binsearch_range_opened(image, 0, image.parts.num_pushed as usize, val)
}

// The number of the first value that is val, from a on and below b.
pub fn binsearch_range(
    image: &[u64],
    a: usize,
    b: usize,
    val: u64,
) -> Result<Option<usize>, Refusal>
    ensures { of_optional result ≡ query image.now (BinsearchRange a b val) }
{
    let image = Image::open(image)?;
    binsearch_range_opened(&image, a, b, val)
}

// The number of the first value that is val.
pub fn binsearch(image: &[u64], val: u64) -> Result<Option<usize>, Refusal>
    ensures { of_optional result ≡ query image.now (Binsearch val) }
{
    let image = Image::open(image)?;
    binsearch_opened(&image, val)
}
