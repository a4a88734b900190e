// Whether high words and low words hold nothing but times in order: what an image is opened by and a record finished with.
//
// Ones that are neighbours in the high words stand for times with the same high bits, and only of these the low bits are compared. So it takes
// the time of counting the ones of the high words, and of a count of ones and one or two readings of low bits for each pair of neighbours. With
// `strict` the times are to rise at each step, and the low bits of neighbours with them.
ghost use Rattle.std.specs.Prelude.{◌≡◌, cond, ℕ, suc, ◌+◌, ◌-◌, ◌*◌, ◌%◌, ◌^◌, ◌≤◌, ◌<◌, leb, ltb, length, get_or};
ghost use Rattle.broadword.specs.Bits.{count, ones};
ghost use Rattle.broadword.specs.Fields.{flag, word};
ghost use Rattle.bit_words.specs.Vector.{bit_at};
ghost use Rattle.darray.specs.Pending.{Decides};
ghost use Rattle.elias_fano_words.specs.Checks.{Held, Rises, Each, LastOne, time_at, Filled, Checkable, low_bits, Clear, InOrder};
ghost use Rattle.elias_fano_words.specs.Times.{last_of, times_in, holds_if};

use bit_words::{WORD_LEN, last_used, rank_words, words_for};
use broadword::{msb, popcount};

// Whether no bit is set from the place pos on.
fn clear_from(words: &[u64], pos: usize) -> bool
    ensures { Decides result (Clear words.now pos) }
{
    let at = pos / WORD_LEN;
    let used = last_used(words, words.len());
    if used <= at {
        return true;
    }
    if used != at + 1 {
        return false;
    }
    words[at] >> (pos % WORD_LEN) == 0
}

// The 64 bits from pos on. Where no word follows that of pos, it is read again: only bits past the last are wrong then.
// (`window` of `bit_words` gives 0 for these, and tests for that.)
pub fn bits_at(words: &[u64], pos: usize) -> u64
    requires { pos < length words.now * 64 }
    ensures { (n : ℕ) → n ≤ 64 → pos + n ≤ length words.now * 64 → result % 2 ^ n ≡ word 1 (λ i. bit_at words.now (pos + i)) n }
{
    let at = pos / WORD_LEN;
    let shift = pos % WORD_LEN;
    let next = (at + 1).min(words.len() - 1);
    (words[at] >> shift) | ((words[next] << 1) << (WORD_LEN - 1 - shift))
}

// The l bits from pos on.
fn low_from(low: &[u64], l: usize, pos: usize) -> u64
    requires { (l < 64) × (pos + l ≤ length low.now * 64) }
    ensures { result ≡ word 1 (λ i. bit_at low.now (pos + i)) l }
{
    if l == 0 {
        return 0;
    }
    bits_at(low, pos) & ((1 << l) - 1)
}

// The l low bits with the number k.
pub fn low_at(low: &[u64], l: usize, k: usize) -> u64
    requires { (l < 64) × Held l low.now (k + 1) }
    ensures { result ≡ low_bits l low.now k }
{
    low_from(low, l, k * l)
}

// Whether the l low bits with the number k do not exceed the next ones, and with `strict` are below them. Up to 32 bits, one reading has both.
fn rises(low: &[u64], l: usize, k: usize, strict: bool) -> bool
    requires { (l < 64) × Held l low.now (k + 2) }
    ensures { result ≡ leb (low_bits l low.now k + flag strict) (low_bits l low.now (suc k)) }
{
    if l == 0 {
        return !strict;
    }
    let mask = (1u64 << l) - 1;
    let pos = k * l;
    let bits = bits_at(low, pos);
    let least = (bits & mask) + strict as u64;
    if l <= 32 {
        return least <= (bits >> l) & mask;
    }
    least <= bits_at(low, pos + l) & mask
}

// Whether the low bits rise so at each of the places of the word w that `marks` has, with `before` ones before the word. The lowest mark is
// taken off at each turn.
fn word_rises(low: &[u64], l: usize, w: u64, marks: u64, before: usize, strict: bool) -> bool
    requires { (l < 64) × Each marks (λ j. Held l low.now (before + ones w j + 2)) }
    ensures { Decides result (Each marks (λ j. Rises strict l low.now (before + ones w j))) }
{
    let mut left = marks;
    while left != 0 { // no `for`: the marks are bits of a word, not items
        let lowest = left & (!left + 1);
        if !rises(low, l, before + popcount(w & (lowest - 1)), strict) {
            return false;
        }
        left -= lowest;
    }
    true
}

// The word after the word i, or 0.
fn next_word(words: &[u64], i: usize) -> u64
    requires { i < length words.now }
    ensures { result ≡ get_or words.now (i + 1) 0 }
{
    words.get(i + 1).copied().unwrap_or(0)
}

// Whether the low bits of neighbouring ones of the high words rise so. A place is marked if it and the next one are ones.
fn in_order(high: &[u64], low: &[u64], l: usize, strict: bool) -> bool
    requires { (l < 64) × Held l low.now (count (bit_at high.now) (length high.now * 64)) }
    ensures { Decides result (InOrder strict l high.now low.now) }
{
    if l == 0 && !strict {
        return true;
    }
    let mut before: usize = 0;
    for (i, w) in high.iter().enumerate() {
        let marks = *w & ((*w >> 1) | (next_word(high, i) << 63));
        if !word_rises(low, l, *w, marks, before, strict) {
            return false;
        }
        before += popcount(*w);
    }
    true
}

// The place of the last one.
fn last_one(words: &[u64]) -> usize
    requires { ((p : ℕ) × LastOne words.now p) × (length words.now * 64 < 2 ^ 64) }
    ensures { LastOne words.now result }
{
    let i = last_used(words, words.len()) - 1;
    i * WORD_LEN + msb(words[i]).unwrap()
}

// The last of m times, if it is below the universe. Its high bits are compared first: above those of the universe, they could leave the
// word when shifted.
fn last_time(high: &[u64], low: &[u64], universe: u64, l: usize, m: usize) -> Option<u64>
    requires { Filled l high.now low.now m }
    ensures { (p : ℕ) → LastOne high.now p → result ≡ cond (ltb (time_at l low.now (m - 1) p) universe) (Some (time_at l low.now (m - 1) p)) None }
{
    let k = m - 1;
    let upper = (last_one(high) - k) as u64;
    if universe >> l < upper {
        return None;
    }
    let time = (upper << l) + low_at(low, l, k);
    (time < universe).then_some(time)
}

// The last of num_pushed times that the high words and the low words after them hold, if they hold nothing else and, with `strict`, none
// twice. low_len and high_len are those of the record.
pub fn check(
    words: &[u64],
    universe: u64,
    num_vals: u64,
    num_pushed: u64,
    low_len: usize,
    high_len: usize,
    strict: bool,
) -> Option<u64>
    requires { Checkable universe num_vals num_pushed low_len high_len words.now }
    ensures { result ≡ cond (holds_if universe num_vals strict num_pushed words.now) (Some (last_of (times_in universe num_vals num_pushed words.now))) None }
{
    let m = num_pushed as usize;
    let split = words_for(high_len);
    let high = &words[..split];
    let low = &words[split..];
    if !clear_from(high, high_len) {
        return None;
    }
    if rank_words(high, high_len) != m {
        return None;
    }
    if !clear_from(low, m * low_len) {
        return None;
    }
    if !in_order(high, low, low_len, strict) {
        return None;
    }
    if m == 0 {
        return Some(0);
    }
    last_time(high, low, universe, low_len, m)
}
