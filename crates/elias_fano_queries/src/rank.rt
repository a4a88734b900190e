// Rank: how many values are below one.
//
// The zero with the number h of the high bits stands after the ones of all values whose high bits are at most h. So the zero of a value's own high
// bits ends its bucket, the values with the same high bits, and the low bits of these alone are compared: one after the other, back
// from the last, or by halving if there are more than 16.
ghost use Rattle.std.specs.Prelude.{◌≡◌, true, ◌+◌, ◌*◌, ◌/◌, ◌%◌, ◌^◌, ◌≤◌, ◌<◌, leb, get_or};
ghost use Rattle.errors.specs.Answer.{of_optional};
ghost use Rattle.broadword.specs.Fields.{flag};
ghost use Rattle.bit_words.specs.Vector.{bit_at};
ghost use Rattle.elias_fano.specs.Accept.{times};
ghost use Rattle.elias_fano.specs.Ask.{Rank, below, asked, query};
ghost use Rattle.elias_fano.specs.Opening.{high_part};
ghost use Rattle.elias_fano_queries.specs.Demands.{crowded};

use bit_words::{WORD_LEN, low_bits, window};
use darray::select::select_within;
use elias_fano::opened::Image;
use elias_fano_words::check::low_at;
use errors::Refusal;

// So many values of a bucket are compared one after the other.
const LINEAR_WALK_THRESHOLD: usize = 16;

// How many values have high bits up to h: so many ones stand before the zero with the number h.
fn count_upto(image: &Image, h: usize) -> usize
    requires { (image.now.parts.rank ≡ true) × (h ≤ image.now.parts.universe / 2 ^ image.now.parts.low_len) }
    ensures { result ≡ below ((h + 1) * 2 ^ image.now.parts.low_len) (times image.now.words.now) }
{
    let start = image.parts.low_at;
    let zeros_at = image.parts.zeros_at;
    let zeros = image.parts.high_len - image.parts.num_pushed as usize;
    let place = select_within(
        &image.words[6..start],
        image.parts.high_len,
        false,
        &image.words[zeros_at..],
        zeros,
        h,
    );
    place - h
}

// The high bit at a place.
fn high_bit(image: &Image, place: usize) -> u64
    requires { place < image.now.parts.high_len }
    ensures { result ≡ bit_at (high_part image.now.words.now image.now.parts) place }
{
    let start = image.parts.low_at;
    let high = &image.words[6..start];
    let at = place / WORD_LEN;
    (high[at] >> (place % WORD_LEN)) % 2
}

// The low bits of the value with the number k.
fn low_of(image: &Image, k: usize) -> u64
    requires { k < image.now.parts.num_pushed }
    ensures { result ≡ get_or (times image.now.words.now) k 0 % 2 ^ image.now.parts.low_len }
{
    let start = image.parts.low_at;
    let end = image.parts.ones_at;
    low_at(&image.words[start..end], image.parts.low_len, k)
}

// How many values are below val, walking back from the end of its bucket: as long as the one before is there and its low bits are not below.
fn walk_back(image: &Image, val: u64, end: usize) -> usize
    requires { (val < image.now.parts.universe) × (end ≡ below ((val / 2 ^ image.now.parts.low_len + 1) * 2 ^ image.now.parts.low_len) (times image.now.words.now)) }
    ensures { result ≡ below val (times image.now.words.now) }
{
    let h = (val >> image.parts.low_len) as usize;
    let low = low_bits(val, image.parts.low_len);
    for i in (0..end).rev() {
        if high_bit(image, h + i) == 0 {
            return i + 1;
        }
        if low_of(image, i) < low {
            return i + 1;
        }
    }
    0
}

// The same by halving, between the ends of the bucket. (By `while`: either end moves, and no index is counted.)
fn halve_bucket(image: &Image, val: u64, first: usize, end: usize) -> usize
    requires { (first ≡ below (val / 2 ^ image.now.parts.low_len * 2 ^ image.now.parts.low_len) (times image.now.words.now)) × (end ≡ below ((val / 2 ^ image.now.parts.low_len + 1) * 2 ^ image.now.parts.low_len) (times image.now.words.now)) }
    ensures { result ≡ below val (times image.now.words.now) }
{
    let low = low_bits(val, image.parts.low_len);
    let mut from = first;
    let mut to = end;
    while from < to {
        let mid = from + (to - from) / 2;
        if low_of(image, mid) < low {
            from = mid + 1;
        } else {
            to = mid;
        }
    }
    from
}

// Where the bucket with the high bits h begins: how many values have lesser ones.
fn count_before(image: &Image, h: usize) -> usize
    requires { (image.now.parts.rank ≡ true) × (h ≤ image.now.parts.universe / 2 ^ image.now.parts.low_len) }
    ensures { result ≡ below (h * 2 ^ image.now.parts.low_len) (times image.now.words.now) }
{
    if h == 0 {
        return 0;
    }
    count_upto(image, h - 1)
}

// Whether more than 16 ones, and no zero, stand before the place of the high bits.
fn is_crowded(image: &Image, place: usize) -> bool
    requires { place < image.now.parts.high_len }
    ensures { result ≡ crowded (high_part image.now.words.now image.now.parts) place }
{
    if place <= LINEAR_WALK_THRESHOLD {
        return false;
    }
    let start = image.parts.low_at;
    let before = window(
        &image.words[6..start],
        start - 6,
        place - LINEAR_WALK_THRESHOLD - 1,
    );
    low_bits(before, LINEAR_WALK_THRESHOLD + 1) == 0x1_ffff
}

// The same, by halving if the bucket may be long.
fn rank_from(image: &Image, val: u64, end: usize) -> usize
    requires { (image.now.parts.rank ≡ true) × (val < image.now.parts.universe) × (end ≡ below ((val / 2 ^ image.now.parts.low_len + 1) * 2 ^ image.now.parts.low_len) (times image.now.words.now)) }
    ensures { result ≡ below val (times image.now.words.now) }
{
    let h = (val >> image.parts.low_len) as usize;
    if is_crowded(image, h + end) {
        let first = count_before(image, h);
        return halve_bucket(image, val, first, end);
    }
    walk_back(image, val, end)
}

// 1 if the low bits of the value with the number k are not below, else 0.
fn from_low(image: &Image, k: usize, low: u64) -> u64
    requires { k < image.now.parts.num_pushed }
    ensures { result ≡ flag (leb low (get_or (times image.now.words.now) k 0 % 2 ^ image.now.parts.low_len)) }
{
    u64::from(low <= low_of(image, k))
}

// How many values are below val, which is below the universe. Few buckets hold two values: where one of the two bits before the bucket's end is not
// set, the last value alone decides, and is compared without a branch, whether or not it is in the bucket.
pub fn rank_within(image: &Image, val: u64) -> usize
    requires { (image.now.parts.rank ≡ true) × (val < image.now.parts.universe) }
    ensures { result ≡ below val (times image.now.words.now) }
{
    let h = (val >> image.parts.low_len) as usize;
    let end = count_upto(image, h);
    if end >= 2 {
        let last = high_bit(image, h + (end - 1));
        if last & high_bit(image, h + (end - 2)) == 0 {
            let low = low_bits(val, image.parts.low_len);
            return end - (last & from_low(image, end - 1, low)) as usize;
        }
    }
    rank_from(image, val, end)
}

// How many values are below val, of an opened image: constant time but for the words between every 32nd zero and a bucket's halving.
pub fn rank_opened(image: &Image, val: u64) -> Result<Option<usize>, Refusal>
    ensures { of_optional result ≡ asked image.now.words.now (Rank val) }
{
    if val > image.parts.universe {
        return Ok(None);
    }
    if val == image.parts.universe {
        return Ok(Some(image.parts.num_pushed as usize));
    }
    if !image.parts.rank {
        return Err(Refusal::NoRankIndex);
    }
    Ok(Some(rank_within(image, val)))
}

// How many values are below val.
pub fn rank(image: &[u64], val: u64) -> Result<Option<usize>, Refusal>
    ensures { of_optional result ≡ query image.now (Rank val) }
{
    let image = Image::open(image)?;
    rank_opened(&image, val)
}
