// Positions found word by word: a cursor moves over the words by their counts of ones, so that a position takes the time of the
// words between, and those between it and the last one found are not visited.
ghost use Rattle.std.specs.Prelude.{◌≡◌, true, cond, ◌+◌, ◌-◌, ◌*◌, ◌/◌, ◌^◌, ◌≤◌, ◌<◌, min, leb, length, get_or};
ghost use Rattle.broadword.specs.Bits.{count, ones};
ghost use Rattle.bit_words.specs.Vector.{words_for, bit_over, word_over};
ghost use Rattle.darray_positions.specs.Scan.{Position, last_in_block, Ahead, Inside, Ranging, Reaches, Hits, Spans, FullBlocks};

use bit_words::{WORD_LEN, count_words, low_bits, word_over};
use broadword::{popcount, select_in_word_within};

// Positions in a block.
pub const BLOCK_LEN: usize = 1024;

// Positions to a distance.
pub const SUBBLOCK_LEN: usize = 32;

// A block whose last position lies this far from its first overflows.
const MAX_IN_BLOCK_DISTANCE: u64 = 1 << 16;

// A block that is spread over as many words overflows, or nearly.
const FAR: usize = 1024;

// A word, and how many positions stand before it.
#[derive(Clone, Copy)]
pub struct Cursor {
    pub word: usize,
    pub before: usize,
}

// A position, and a cursor at its word. The contracts promise of a cursor that it has not passed the position: where it stands decides only about time.
#[derive(Clone, Copy)]
pub struct Hit {
    pub at: u64,
    pub cursor: Cursor,
}

// The ends of a block, and a cursor at the word of the last.
#[derive(Clone, Copy)]
pub struct Span {
    pub first: u64,
    pub last: u64,
    pub next: Cursor,
}

// How many blocks are full, how many of their positions go to the overflow, a cursor that has not passed the next block, and how many positions
// stand in the whole words.
#[derive(Clone, Copy)]
pub struct Full {
    pub blocks: usize,
    pub overflow: usize,
    pub from: Cursor,
    pub positions: usize,
}

// The positions in the used part of the last word, where it is not used whole.
pub fn tail_positions(words: &[u64], len: usize, over_one: bool) -> usize
    requires { words_for len ≤ length words.now }
    ensures { count (bit_over over_one words.now) (len / 64 * 64) + result ≡ count (bit_over over_one words.now) len }
{
    let left = len % WORD_LEN;
    if left == 0 {
        return 0;
    }
    popcount(low_bits(word_over(words, len / WORD_LEN, over_one), left))
}

// The number of positions: those of each whole word, and those of the used part of the last.
pub fn count_positions(words: &[u64], len: usize, over_one: bool) -> usize
    requires { words_for len ≤ length words.now }
    ensures { result ≡ count (bit_over over_one words.now) len }
{
    count_words(words, 0, len / WORD_LEN, over_one) + tail_positions(words, len, over_one)
}

// A cursor less than eight words before the word of the position with the number k, or less than eight before the word `end`.
fn leap(words: &[u64], over_one: bool, from: Cursor, k: usize, end: usize) -> Cursor
    requires { Ahead (bit_over over_one words.now) from k × Ranging from end (length words.now) }
    ensures { Ahead (bit_over over_one words.now) result k × (from.word ≤ result.word) × (result.word ≤ end) }
{
    let whole = end - (end - from.word) % 8;
    let mut before = from.before;
    for word in (from.word..whole).step_by(8) {
        let n = count_words(words, word, word + 8, over_one);
        if k - before < n {
            return Cursor { word, before };
        }
        before += n;
    }
    Cursor {
        word: whole,
        before,
    }
}

// Whether the position with the number k lies `FAR` words past the cursor or farther. Where it does not say so, nothing is promised: it only picks the
// faster way.
pub fn is_far(words: &[u64], over_one: bool, from: Cursor, k: usize) -> bool
    requires { Ahead (bit_over over_one words.now) from k × (from.word ≤ length words.now) }
    ensures { result ≡ true → count (bit_over over_one words.now) ((from.word + 1024) * 64) ≤ k }
{
    let start = from.word;
    if words.len() - start < FAR {
        return false;
    }
    let near = leap(words, over_one, from, k, start + FAR);
    near.word == start + FAR
}

// A cursor at the word of the position with the number k, or at the word `end` if that comes first. It goes word by word: for positions that are near.
fn advance(words: &[u64], over_one: bool, from: Cursor, k: usize, end: usize) -> Cursor
    requires { Ahead (bit_over over_one words.now) from k × Ranging from end (length words.now) }
    ensures { Reaches over_one words.now from k end result }
{
    let mut before = from.before;
    for word in from.word..end {
        let n = popcount(word_over(words, word, over_one));
        if k - before < n {
            return Cursor { word, before };
        }
        before += n;
    }
    Cursor { word: end, before }
}

// The same, eight words at a time: for positions that are far.
fn seek(words: &[u64], over_one: bool, from: Cursor, k: usize, end: usize) -> Cursor
    requires { Ahead (bit_over over_one words.now) from k × Ranging from end (length words.now) }
    ensures { Reaches over_one words.now from k end result }
{
    advance(words, over_one, leap(words, over_one, from, k, end), k, end)
}

// The position with the number k, which stands in the cursor's word.
fn place_at(words: &[u64], over_one: bool, c: Cursor, k: usize) -> u64
    requires { Ahead (bit_over over_one words.now) c k × (c.word < length words.now) × (c.word * 64 ≤ 2 ^ 63) × (k < c.before + ones (word_over over_one (get_or words.now c.word 0)) 64) }
    ensures { Position (bit_over over_one words.now) k result }
{
    let w = word_over(words, c.word, over_one);
    (c.word * WORD_LEN + select_in_word_within(w, k - c.before)) as u64
}

// The position with the number k, where it is near.
pub fn find_near(words: &[u64], over_one: bool, from: Cursor, k: usize) -> Hit
    requires { Ahead (bit_over over_one words.now) from k × Inside (bit_over over_one words.now) (length words.now) k }
    ensures { Hits (bit_over over_one words.now) k result }
{
    let cursor = advance(words, over_one, from, k, words.len());
    Hit {
        at: place_at(words, over_one, cursor, k),
        cursor,
    }
}

// The position with the number k.
fn find(words: &[u64], over_one: bool, from: Cursor, k: usize) -> Hit
    requires { Ahead (bit_over over_one words.now) from k × Inside (bit_over over_one words.now) (length words.now) k }
    ensures { Hits (bit_over over_one words.now) k result }
{
    let near = leap(words, over_one, from, k, words.len());
    find_near(words, over_one, near, k)
}

// A cursor at the word of the position with the number k, which stands at `at`.
pub fn cursor_at(words: &[u64], over_one: bool, k: usize, at: usize) -> Cursor
    requires { Position (bit_over over_one words.now) k at × Inside (bit_over over_one words.now) (length words.now) k }
    ensures { Ahead (bit_over over_one words.now) result k }
{
    let word = at / WORD_LEN;
    let below = popcount(low_bits(word_over(words, word, over_one), at % WORD_LEN));
    Cursor {
        word,
        before: k - below,
    }
}

// The number of positions in a block.
pub fn block_size(n: usize, block: usize) -> usize
    requires { 1024 * block ≤ n }
    ensures { result ≡ min 1024 (n - 1024 * block) }
{
    BLOCK_LEN.min(n - BLOCK_LEN * block)
}

// Whether a block with these ends overflows.
pub fn is_wide(first: u64, last: u64) -> bool
    requires { first ≤ last }
    ensures { result ≡ leb 65536 (last - first) }
{
    last - first >= MAX_IN_BLOCK_DISTANCE
}

// How many of its positions go to the overflow.
pub fn spilled(first: u64, last: u64, size: usize) -> usize
    requires { first ≤ last }
    ensures { result ≡ cond (leb 65536 (last - first)) size 0 }
{
    if is_wide(first, last) { size } else { 0 }
}

// The ends of a block of n positions.
pub fn ends(words: &[u64], over_one: bool, n: usize, block: usize, from: Cursor) -> Span
    requires { Ahead (bit_over over_one words.now) from (1024 * block) × Inside (bit_over over_one words.now) (length words.now) (last_in_block n block) × (1024 * block < n) }
    ensures { Spans (bit_over over_one words.now) n block result }
{
    let k = BLOCK_LEN * block;
    let a = find(words, over_one, from, k);
    let b = find(words, over_one, a.cursor, k + (block_size(n, block) - 1));
    Span {
        first: a.at,
        last: b.at,
        next: b.cursor,
    }
}

// The full blocks that end in a whole word: their positions are counted while the ends of the blocks are searched.
pub fn full_blocks(words: &[u64], len: usize, over_one: bool) -> Full
    requires { (words_for len ≤ length words.now) × (len < 2 ^ 63) }
    ensures { FullBlocks over_one words.now len result }
{
    let end = len / WORD_LEN;
    let mut overflow: usize = 0;
    let mut from = Cursor { word: 0, before: 0 };
    let mut j: usize = 0; // no `for`: how many blocks are full is what the loop finds
    loop {
        let k = BLOCK_LEN * j;
        let first = seek(words, over_one, from, k, end);
        let last = seek(words, over_one, first, k + (BLOCK_LEN - 1), end);
        if last.word == end {
            return Full {
                blocks: j,
                overflow,
                from,
                positions: last.before,
            };
        }
        overflow += spilled(
            place_at(words, over_one, first, k),
            place_at(words, over_one, last, k + (BLOCK_LEN - 1)),
            BLOCK_LEN,
        );
        from = last;
        j += 1;
    }
}
