// A walk over the ones of a bit vector. Its state is a value beside the words and the length, which each call takes again.
//
// `next` takes the place that it gives; `skip1` and `skip0` stop on it without taking it. A none ends the walk. `next_within` is `next` for a
// caller that loops: it demands a walk over these bits, as `new` and each step leave it, and costs a constant and the words that it
// passes.
ghost use Rattle.std.specs.Prelude.{◌≡◌, true, false, ◌*◌, ◌/◌, ◌%◌, ◌^◌, ◌≤◌, ◌<◌, length, get_or};
ghost use Rattle.bit_words.specs.Vector.{bit_over, invalid};
ghost use Rattle.bit_words.specs.Inner.{Skipped};
ghost use Rattle.bit_vectors.specs.Inner.{OneAhead, stop_at};
ghost use Rattle.bit_vectors.specs.Walk.{of_started, of_stepped, walk_new_of, walk_step_of, next_of, skip1_of, skip0_of, Walking};

use bit_words::{WORD_LEN, checked, find_from, is_invalid, words_for};
use broadword::lsb;
use errors::Refusal;

#[derive(Clone, Copy)]
pub struct Unary {
    // The start, then the last place given; the length once a none was given.
    pub position: usize,
    // The first place not yet taken.
    pub from: usize,
    // Of the word of `position`, the bits from the place `from` on.
    pub buf: u64,
}

#[derive(Clone, Copy)]
pub struct Stepped {
    pub place: Result<Option<usize>, Refusal>,
    pub walk: Unary,
}

// The walk that stands on the place `from` and has not taken it.
pub fn walk_from(words: &[u64], from: usize) -> Unary
    requires { from / 64 < length words.now }
    ensures { result ≡ record { position = from; from = from; buf = get_or words.now (from / 64) 0 / 2 ^ (from % 64) * 2 ^ (from % 64) } }
{
    let at = from / WORD_LEN;
    let shift = from % WORD_LEN;
    let buf = (words[at] >> shift) << shift;
    Unary {
        position: from,
        from,
        buf,
    }
}

pub fn new(words: &[u64], len: usize, start: usize) -> Result<Unary, Refusal>
    ensures { of_started result ≡ walk_new_of words.now len start }
{
    checked(words, len)?;
    let used = words_for(len);
    if used <= start / WORD_LEN {
        return Err(Refusal::OutOfBounds);
    }
    Ok(walk_from(words, start))
}

// The start, then the last place given, and the length once a none was given.
pub fn position(w: Unary) -> usize
    ensures { result ≡ w.position }
{
    w.position
}

// A none ends the walk.
fn ended(len: usize) -> Stepped
    ensures { result ≡ record { place = Ok None; walk = record { position = len; from = len; buf = 0 } } }
{
    Stepped {
        place: Ok(None),
        walk: Unary {
            position: len,
            from: len,
            buf: 0,
        },
    }
}

// The first word from the word `first` on that is not 0; `used` where none is left. (No Option: who knows of such a word takes the number as it is.)
pub fn skip_zeros(words: &[u64], first: usize, used: usize) -> usize
    requires { (first ≤ used) × (used ≤ length words.now) }
    ensures { Skipped (bit_over true words.now) first used 0 result 0 }
{
    for word in first..used {
        if words[word] != 0 {
            return word;
        }
    }
    used
}

// A word, and of it the bits that are still ahead of a walk. (No `Unary`: it has no length and no start.)
#[derive(Clone, Copy)]
struct Left {
    at: usize,
    rest: u64,
}

// The first word with a one that is still ahead; a rest of 0 where there is none. (No Option: `lsb` of 0 is the none.)
fn left_of(words: &[u64], len: usize, w: Unary) -> Left
    requires { Walking words.now len w }
    ensures { OneAhead words.now len w.from result.at result.rest }
{
    let at = w.position / WORD_LEN;
    let rest = w.buf;
    if rest != 0 {
        return Left { at, rest };
    }
    let used = words_for(len);
    if used <= at + 1 {
        return Left { at, rest: 0 };
    }
    let i = skip_zeros(words, at + 1, used);
    if i == used {
        return Left { at, rest: 0 };
    }
    Left {
        at: i,
        rest: words[i],
    }
}

// `next`, of a walk over these bits.
pub fn next_within(words: &[u64], len: usize, w: Unary) -> Stepped
    requires { Walking words.now len w }
    ensures { of_stepped result ≡ next_of words.now len w }
{
    let left = left_of(words, len, w);
    let at = left.at;
    let rest = left.rest;
    let Some(bit) = lsb(rest) else {
        return ended(len);
    };
    let place = at * WORD_LEN + bit;
    Stepped {
        place: Ok(Some(place)),
        walk: Unary {
            position: place,
            from: place + 1,
            buf: rest & (rest - 1),
        },
    }
}

// The next one, which is taken.
pub fn next(words: &[u64], len: usize, w: Unary) -> Stepped
    ensures { of_stepped result ≡ next_of words.now len w }
{
    if is_invalid(words, len) {
        return Stepped {
            place: Err(Refusal::InvalidBits),
            walk: w,
        };
    }
    let from = w.from;
    if len <= from {
        return ended(len);
    }
    next_within(words, len, walk_from(words, from))
}

// The walk stops on a place, if it lies below the length.
fn stop(words: &[u64], len: usize, place: usize) -> Stepped
    requires { invalid words.now len ≡ false }
    ensures { of_stepped result ≡ stop_at words.now len place }
{
    if len <= place {
        return ended(len);
    }
    Stepped {
        place: Ok(Some(place)),
        walk: walk_from(words, place),
    }
}

// To the one, or the zero, that k of its kind stand before, from the first place not yet taken on.
fn skip_over(words: &[u64], len: usize, w: Unary, over_one: bool, k: usize) -> Stepped
    ensures { of_stepped result ≡ walk_step_of words.now len w over_one 0 k }
{
    if is_invalid(words, len) {
        return Stepped {
            place: Err(Refusal::InvalidBits),
            walk: w,
        };
    }
    let from = w.from;
    if len <= from {
        return ended(len);
    }
    let used = words_for(len);
    let Some(place) = find_from(words, used, over_one, from, k) else {
        return ended(len);
    };
    stop(words, len, place)
}

// Both names are the Rust's, over one function.
pub fn skip1(words: &[u64], len: usize, w: Unary, k: usize) -> Stepped
    ensures { of_stepped result ≡ skip1_of words.now len w k }
{
    skip_over(words, len, w, true, k)
}

pub fn skip0(words: &[u64], len: usize, w: Unary, k: usize) -> Stepped
    ensures { of_stepped result ≡ skip0_of words.now len w k }
{
    skip_over(words, len, w, false, k)
}
