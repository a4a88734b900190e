// The words of a bit vector: what the calls on it, and the layers that hold words of their own, share.
//
// `words_for`, `is_invalid` and `checked` take anything. The others are inner: each demands the words that it reads, as its `requires` says.
#![tactic(auto)]

ghost use Rattle.std.specs.Prelude.{◌≡◌, true, false, MatchResult, ◌+◌, ◌-◌, ◌*◌, ◌/◌, ◌%◌, ◌^◌, ◌<◌, ◌≤◌, ◌++◌, length, get_or, take, drop, replicate, Some};
ghost use Rattle.errors.specs.declared.Refusal.TheVariants.{InvalidBits};
ghost use Rattle.broadword.specs.Bits.{count};
ghost use Rattle.broadword.specs.Places.{last, select};
ghost use Rattle.broadword.specs.Fields.{flag, word};
ghost use Rattle.bit_words.specs.Vector.{bit_at, bit_over, words_for, invalid, word_over, put_bit, appended, overwrite};
ghost use Rattle.bit_words.specs.Inner.{Skipped, Ending, Appendable, Overwritable, Within, place_in, Findable};

use broadword::{lsb, msb, popcount, select_in_word_within};
use errors::Refusal;

pub const WORD_LEN: usize = 64;

// How many words the bits of a length use.
pub fn words_for(len: usize) -> usize
    ensures { result ≡ words_for len }
{
    len.div_ceil(WORD_LEN)
}

// Whether the words are no bit vector of this length: too few of them, or a bit past it is set.
pub fn is_invalid(words: &[u64], len: usize) -> bool
    ensures { result ≡ invalid words.now len }
{
    let used = words_for(len);
    if words.len() < used {
        return true;
    }
    let left = len % WORD_LEN;
    if left == 0 {
        return false;
    }
    let last = len / WORD_LEN;
    words[last] >> left != 0
}

// Refuses words that are no bit vector of this length.
pub fn checked(words: &[u64], len: usize) -> Result<(), Refusal>
    ensures { MatchResult result (λ _. invalid words.now len ≡ false) (λ e. (e ≡ InvalidBits) × (invalid words.now len ≡ true)) }
{
    if is_invalid(words, len) {
        return Err(Refusal::InvalidBits);
    }
    Ok(())
}

// The word whose ones are the ones, or the zeros, of w.
fn over(w: u64, over_one: bool) -> u64
    ensures { result ≡ word_over over_one w }
{
    if over_one { w } else { !w }
}

// The same of the word i. (`over_one` is a flag, here and above, as `bit_over` of the contracts has it.)
pub fn word_over(words: &[u64], i: usize, over_one: bool) -> u64
    requires { i < length words.now }
    ensures { result ≡ word_over over_one (get_or words.now i 0) }
{
    over(words[i], over_one)
}

// The lowest bits of x.
pub fn low_bits(x: u64, width: usize) -> u64
    requires { width ≤ 64 }
    ensures { result ≡ x % 2 ^ width }
{
    if width == WORD_LEN {
        return x;
    }
    x & ((1 << width) - 1)
}

// The 64 bits from pos on, of the first `used` words.
pub fn window(words: &[u64], used: usize, pos: usize) -> u64
    requires { (pos / 64 < used) × (used ≤ length words.now) }
    ensures { result ≡ word 1 (λ i. bit_at (take used words.now) (pos + i)) 64 }
{
    let at = pos / WORD_LEN;
    let shift = pos % WORD_LEN;
    let low = words[at] >> shift;
    if used <= at + 1 {
        return low;
    }
    low | ((words[at + 1] << 1) << (WORD_LEN - 1 - shift))
}

// The word whose ones are the ones, or the zeros, of the 64 bits from pos on.
fn window_over(words: &[u64], used: usize, pos: usize, over_one: bool) -> u64
    requires { (pos / 64 < used) × (used ≤ length words.now) }
    ensures { result ≡ word_over over_one (word 1 (λ i. bit_at (take used words.now) (pos + i)) 64) }
{
    over(window(words, used, pos), over_one)
}

// The ones, or the zeros, of the words from the word `first` on, before the word `end`.
pub fn count_words(words: &[u64], first: usize, end: usize, over_one: bool) -> usize
    requires { (first ≤ end) × (end ≤ length words.now) × ((end - first) * 64 < 2 ^ 64) }
    ensures { count (bit_over over_one words.now) (first * 64) + result ≡ count (bit_over over_one words.now) (end * 64) }
{
    let mut n: usize = 0;
    for w in &words[first..end] {
        n += popcount(over(*w, over_one));
    }
    n
}

// The ones below pos.
pub fn rank_words(words: &[u64], pos: usize) -> usize
    requires { pos ≤ length words.now * 64 }
    ensures { result ≡ count (bit_at words.now) pos }
{
    let whole = pos / WORD_LEN;
    let left = pos % WORD_LEN;
    let r = count_words(words, 0, whole, true);
    if left == 0 {
        return r;
    }
    r + popcount(words[whole] << (WORD_LEN - left))
}

// A word, and how many ones of it stand before the one that was looked for. (In `darray_positions` a cursor counts those before the word.)
#[derive(Clone, Copy)]
pub struct Spot {
    pub word: usize,
    pub left: usize,
}

// The word, from the word `first` on, in which the one with k before it stands, counted from that word on; `used` where none has it.
// (A number and no Option: who knows that a word has it takes the number as it is.)
pub fn skip_words(words: &[u64], first: usize, used: usize, over_one: bool, k: usize) -> Spot
    requires { (first ≤ used) × (used ≤ length words.now) }
    ensures { Skipped (bit_over over_one words.now) first used k result.word result.left }
{
    let mut word = first;
    let mut left = k;
    while word < used { // no `for`: with it select1 was measured to take a quarter longer
        let ones = popcount(word_over(words, word, over_one));
        if left < ones {
            break;
        }
        left -= ones;
        word += 1;
    }
    Spot { word, left }
}

// A place in the word i, as a place in the words.
fn place_in(i: usize, found: Option<usize>) -> Option<usize>
    requires { (i < 2 ^ 58) × Within found }
    ensures { result ≡ place_in i found }
{
    found.map(|bit| i * WORD_LEN + bit)
}

// The place of the one, or the zero, that k of its kind stand before from the place `from` on, in the first `used` words.
pub fn find_from(words: &[u64], used: usize, over_one: bool, from: usize, k: usize) -> Option<usize>
    requires { Findable words.now used from }
    ensures { result ≡ select (bit_over over_one words.now) (used * 64) (count (bit_over over_one words.now) from + k) }
{
    let at = from / WORD_LEN;
    let shift = from % WORD_LEN;
    let first = (word_over(words, at, over_one) >> shift) << shift;
    let ones = popcount(first);
    if k < ones {
        return Some(at * WORD_LEN + select_in_word_within(first, k));
    }
    let spot = skip_words(words, at + 1, used, over_one, k - ones);
    if spot.word == used {
        return None;
    }
    let bits = word_over(words, spot.word, over_one);
    Some(spot.word * WORD_LEN + select_in_word_within(bits, spot.left))
}

// The same where there is such a one or zero, as a place, but the place's own word does not have it: word by word. (A step of the one below, and not its
// twin: what each knows of where the one stands is another thing.)
fn find_by_words(words: &[u64], used: usize, over_one: bool, from: usize, k: usize) -> usize
    requires { Findable words.now used from × (count (bit_over over_one words.now) from + k < count (bit_over over_one words.now) (used * 64)) × (count (bit_over over_one words.now) ((from / 64 + 1) * 64) ≤ count (bit_over over_one words.now) from + k) }
    ensures { select (bit_over over_one words.now) (used * 64) (count (bit_over over_one words.now) from + k) ≡ Some result }
{
    let at = from / WORD_LEN;
    let shift = from % WORD_LEN;
    let rest = popcount((word_over(words, at, over_one) >> shift) << shift);
    let spot = skip_words(words, at + 1, used, over_one, k - rest);
    let bits = word_over(words, spot.word, over_one);
    spot.word * WORD_LEN + select_in_word_within(bits, spot.left)
}

// The same: mostly the 64 bits from the place on have it, wherever its word begins.
pub fn find_within(words: &[u64], used: usize, over_one: bool, from: usize, k: usize) -> usize
    requires { Findable words.now used from × (count (bit_over over_one words.now) from + k < count (bit_over over_one words.now) (used * 64)) }
    ensures { select (bit_over over_one words.now) (used * 64) (count (bit_over over_one words.now) from + k) ≡ Some result }
{
    let bits = window_over(words, used, from, over_one);
    if k < popcount(bits) {
        return from + select_in_word_within(bits, k);
    }
    find_by_words(words, used, over_one, from, k)
}

// The place of the first one at the place `from` or after it, which there is: mostly it is one of the 64 bits from there on.
pub fn first_from(words: &[u64], used: usize, from: usize) -> usize
    requires { Findable words.now used from × (count (bit_over true words.now) from < count (bit_over true words.now) (used * 64)) }
    ensures { select (bit_over true words.now) (used * 64) (count (bit_over true words.now) from) ≡ Some result }
{
    match lsb(window(words, used, from)) {
        Some(bit) => from + bit,
        None => find_by_words(words, used, true, from, 0),
    }
}

// How many of the first `end` words there are up to the last that is not 0.
pub fn last_used(words: &[u64], end: usize) -> usize
    requires { end ≤ length words.now }
    ensures { Ending words.now end result }
{
    for i in (0..end).rev() {
        if words[i] != 0 {
            return i + 1;
        }
    }
    0
}

// The place of the last one at or before pos.
pub fn last_upto(words: &[u64], pos: usize) -> Option<usize>
    requires { pos / 64 < length words.now }
    ensures { result ≡ last (bit_at words.now) (pos + 1) }
{
    let at = pos / WORD_LEN;
    let low = low_bits(words[at], pos % WORD_LEN + 1);
    if low != 0 {
        return place_in(at, msb(low));
    }
    let n = last_used(words, at);
    if n == 0 {
        return None;
    }
    let i = n - 1;
    place_in(i, msb(words[i]))
}

// The place of the last one before `end`, which there is, word by word.
fn last_by_words(words: &[u64], end: usize) -> usize
    requires { (end ≤ length words.now * 64) × (0 < count (bit_at words.now) end) }
    ensures { last (bit_at words.now) end ≡ Some result }
{
    last_upto(words, end - 1).unwrap()
}

// The same: mostly it is one of the 64 bits before `end`.
pub fn last_before(words: &[u64], end: usize) -> usize
    requires { (end ≤ length words.now * 64) × (0 < count (bit_at words.now) end) }
    ensures { last (bit_at words.now) end ≡ Some result }
{
    if end < WORD_LEN {
        return last_by_words(words, end);
    }
    let from = end - WORD_LEN;
    match msb(window(words, words.len(), from)) {
        Some(bit) => from + bit,
        None => last_by_words(words, end),
    }
}

// The first n words are set to x.
pub fn fill(words: &mut [u64], n: usize, x: u64)
    requires { n ≤ length words.old }
    ensures { words.new ≡ replicate n x ++ drop n words.old }
{
    words[..n].fill(x);
}

pub fn bit_word(bit: bool) -> u64
    ensures { result ≡ flag bit }
{
    u64::from(bit)
}

// The word with `bit` at every place.
pub fn repeated(bit: bool) -> u64
    ensures { result ≡ flag bit * (2 ^ 64 - 1) }
{
    if bit { u64::MAX } else { 0 }
}

// The word with its bit at the place `shift` set to `bit`.
pub fn with_bit(w: u64, shift: usize, bit: bool) -> u64
    requires { shift < 64 }
    ensures { result ≡ put_bit w shift (flag bit) }
{
    (w & !(1 << shift)) | (bit_word(bit) << shift)
}

// The bits x, fewer than 2^width, are written from the place len on. A word that was not used is overwritten whole.
pub fn append(words: &mut [u64], len: usize, x: u64, width: usize)
    requires { Appendable words.old len x width }
    ensures { words.new ≡ appended words.old len x width }
{
    let at = len / WORD_LEN;
    let shift = len % WORD_LEN;
    let last = words[at];
    if shift == 0 {
        words[at] = x;
        return;
    }
    words[at] = last | (x << shift);
    if WORD_LEN - shift < width {
        words[at + 1] = x >> (WORD_LEN - shift);
    }
}

// The bit at the place pos becomes 1.
pub fn set_one(words: &mut [u64], pos: usize)
    requires { pos / 64 < length words.old }
    ensures { words.new ≡ overwrite words.old pos 1 1 }
{
    let at = pos / WORD_LEN;
    words[at] |= 1 << (pos % WORD_LEN);
}

// The word with a one at each of the lowest places.
fn low_mask(width: usize) -> u64
    requires { (1 ≤ width) × (width ≤ 64) }
    ensures { result ≡ 2 ^ width - 1 }
{
    u64::MAX >> (WORD_LEN - width)
}

// The bits from the place pos on become x, a number below 2^width; no other bit changes.
pub fn put_bits(words: &mut [u64], pos: usize, x: u64, width: usize)
    requires { Overwritable words.old pos x width }
    ensures { words.new ≡ overwrite words.old pos width x }
{
    if width == 0 {
        return;
    }
    let at = pos / WORD_LEN;
    let shift = pos % WORD_LEN;
    let room = WORD_LEN - shift;
    let first = words[at];
    if width <= room {
        words[at] = (first & !(low_mask(width) << shift)) | (x << shift);
        return;
    }
    let rest = width - room;
    let second = words[at + 1];
    words[at] = (first & low_mask(shift)) | (x << shift);
    words[at + 1] = ((second >> rest) << rest) | (x >> room);
}
