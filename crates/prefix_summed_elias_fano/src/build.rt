// Writing a list of items as the record of its prefix sums, without a rank index.
//
// One pass over the items adds them up, and one files the sums. In a buffer below the limit (document 02 (vii)) the overflow of the index is counted between them, from the
// items, before the first word is written: the k-th one of the high bits stands at the high bits of the k-th sum plus k, so the ends of each block follow from the sums.
ghost use Rattle.std.specs.Prelude.{◌≡◌, true, ◌++◌, suc, ◌<◌, leb, length, take, drop};
ghost use Rattle.errors.specs.Answer.{leaves, of_result};
ghost use Rattle.darray_positions.specs.Index.{blocks, before};
ghost use Rattle.elias_fano_words.specs.Image.{high_positions};
ghost use Rattle.elias_fano_words.specs.Sizes.{low_len, sizes_of};
ghost use Rattle.prefix_summed_elias_fano.specs.Building.{SumOf, Summable, Part, Writing, Ready, Tests, Zeroed, filed_sums};
ghost use Rattle.prefix_summed_elias_fano.specs.Sums.{sum as sum_of, sums, sums_image, from_slice_of};

use bit_words::fill;
use darray_positions::scan::{BLOCK_LEN, block_size, spilled};
use elias_fano::builder::{Builder, file};
use elias_fano::finish::write_image;
use elias_fano_words::sizes::{MAX_VALS, Sizes, image_len, limit_of, of_record};
use errors::Refusal;

// The largest sum: 1 more is a universe.
const LARGEST: u64 = u64::MAX - 1;

// What nothing stands against: the sum, and the sizes of the record.
#[derive(Clone, Copy)]
struct Job {
    sum: u64,
    sizes: Sizes,
}

// The sum of all items.
fn sum_of(items: &[u64]) -> Option<u64>
    ensures { SumOf items.now result }
{
    let mut sum: u64 = 0;
    for i in 0..items.len() {
        if items[i] > LARGEST - sum {
            return None;
        }
        sum += items[i];
    }
    Some(sum)
}

// The sum of the items up to the place `to`, from that up to the place `from` on.
fn add_up(items: &[u64], from: usize, to: usize, start: u64) -> u64
    requires { Part items.now from to start }
    ensures { result ≡ sum_of (take to items.now) }
{
    let mut sum = start;
    for i in from..to {
        sum += items[i];
    }
    sum
}

// How many positions go to the overflow of the index over the ones, with l low bits to a sum.
fn overflow_of(items: &[u64], l: usize) -> usize
    requires { Summable items.now × (l ≡ low_len (suc (sum_of items.now)) (length items.now)) }
    ensures { result ≡ before (high_positions (suc (sum_of items.now)) (length items.now) true (sums items.now)) (blocks (high_positions (suc (sum_of items.now)) (length items.now) true (sums items.now))) }
{
    let n = items.len();
    let blocks = n.div_ceil(BLOCK_LEN);
    let mut overflow: usize = 0;
    let mut sum: u64 = 0;
    for j in 0..blocks {
        let k = BLOCK_LEN * j;
        let size = block_size(n, j);
        let first = add_up(items, k, k + 1, sum);
        let last = add_up(items, k + 1, k + size, first);
        overflow += spilled(
            (first >> l) + k as u64,
            (last >> l) + (k + (size - 1)) as u64,
            size,
        );
        sum = last;
    }
    overflow
}

// How many words the image has.
fn measured_len(items: &[u64], s: Sizes) -> usize
    requires { Summable items.now × (s ≡ sizes_of (suc (sum_of items.now)) (length items.now)) }
    ensures { result ≡ length (sums_image items.now) }
{
    image_len(s, items.len(), false, overflow_of(items, s.low_len), 0)
}

// Whether it has room in so many words. Where they are as many as the limit, nothing is measured.
fn has_room(items: &[u64], s: Sizes, room: usize) -> bool
    requires { Summable items.now × (s ≡ sizes_of (suc (sum_of items.now)) (length items.now)) }
    ensures { result ≡ leb (length (sums_image items.now)) room }
{
    if limit_of(s, items.len(), false) <= room {
        return true;
    }
    measured_len(items, s) <= room
}

// Files the prefix sums, one after the other, into words that are zeroed for them.
fn file_all(items: &[u64], universe: u64, s: Sizes, buffer: &mut [u64])
    requires { Writing items.now s (length buffer.old) × (universe ≡ suc (sum_of items.now)) × Zeroed items.now buffer.old }
    ensures { buffer.new ≡ filed_sums items.now buffer.old }
{
    let n = items.len() as u64;
    let mut sum: u64 = 0;
    for i in 0..items.len() {
        let b = Builder {
            universe,
            num_vals: n,
            num_pushed: i as u64,
            last: sum,
        };
        sum += items[i];
        file(b, sum, s, &mut *buffer);
    }
}

// Zeroes the words of a start, and files the prefix sums into them.
fn file_sums(items: &[u64], universe: u64, s: Sizes, buffer: &mut [u64])
    requires { Writing items.now s (length buffer.old) × (universe ≡ suc (sum_of items.now)) }
    ensures { buffer.new ≡ filed_sums items.now buffer.old }
{
    fill(&mut *buffer, s.start_len, 0);
    file_all(items, universe, s, &mut *buffer);
}

// Writes the image. How many words it has comes back.
fn write(items: &[u64], j: Job, buffer: &mut [u64]) -> usize
    requires { Ready items.now (length buffer.old) j }
    ensures { (buffer.new ≡ sums_image items.now ++ drop (length (sums_image items.now)) buffer.old) × (result ≡ length (sums_image items.now)) }
{
    let n = items.len() as u64;
    let sum = j.sum;
    let s = j.sizes;
    let b = Builder {
        universe: sum + 1,
        num_vals: n,
        num_pushed: n,
        last: sum,
    };
    file_sums(items, sum + 1, s, &mut *buffer);
    write_image(&mut *buffer, b, false, s)
}

// The tests of the room for the image.
fn test_room(items: &[u64], sum: u64, len: usize) -> Result<Job, Refusal>
    requires { Summable items.now × (sum ≡ sum_of items.now) }
    ensures { Tests items.now len result }
{
    let s = of_record(sum + 1, items.len() as u64);
    if !has_room(items, s, len) {
        return Err(Refusal::ShortBuffer);
    }
    Ok(Job { sum, sizes: s })
}

// The tests of some items, with so many words lent.
fn test(items: &[u64], len: usize) -> Result<Job, Refusal>
    requires { 0 < length items.now }
    ensures { Tests items.now len result }
{
    if items.len() as u64 > MAX_VALS {
        return Err(Refusal::TooMany);
    }
    let Some(sum) = sum_of(items) else {
        return Err(Refusal::SumTooLarge);
    };
    test_room(items, sum, len)
}

// Writes the record of the prefix sums of the items to the front of the buffer, and leaves its later words. The answer is how many words
// it has: none for no items.
pub fn from_slice(items: &[u64], buffer: &mut [u64]) -> Result<usize, Refusal>
    ensures { leaves (of_result result) buffer.new ≡ from_slice_of items.now buffer.old }
{
    if items.is_empty() {
        return Ok(0);
    }
    let j = test(items, buffer.len())?;
    Ok(write(items, j, &mut *buffer))
}
