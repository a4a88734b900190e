// A walk over the values of an image, from a number on. Its state is a value beside the image, which each step takes again.
//
// The functions here are inner: they demand an opened image, and a walk over it as `begin` and each step leave it. A step costs a constant and
// the high words that it passes; a walk reads each high word once, and low bits 63 at a time. What a step hands on takes no product and no
// table, so the next need not wait for them.
ghost use Rattle.std.specs.Prelude.{◌≡◌, suc, ◌*◌, ◌/◌, ◌^◌, ◌<◌, get_or};
ghost use Rattle.elias_fano.specs.Accept.{times};
ghost use Rattle.elias_fano.specs.Opening.{OneAt};
ghost use Rattle.elias_fano_walk.specs.Walking.{WalkOver, OnesAhead, LowsAhead, OneTaken, low_part, of_value_step, value_step_of};

use bit_vectors::unary::{skip_zeros, walk_from};
use bit_words::{WORD_LEN, words_for};
use broadword::lsb;
use elias_fano::image::one_at;
use elias_fano::opened::Image;
use elias_fano_words::check::bits_at;

#[derive(Clone, Copy)]
pub struct Walk {
    // Of the next value.
    pub number: usize,
    // The place of the first bit of the high word where the walk stands.
    pub base: usize,
    // The ones of that word from the next value's on.
    pub rest: u64,
    // Low bits from the next value's on, as many as stand below the highest one.
    pub lows: u64,
}

#[derive(Clone, Copy)]
pub struct Taken {
    pub value: u64,
    pub walk: Walk,
}

#[derive(Clone, Copy)]
pub struct ValueStep {
    pub value: Option<u64>,
    pub walk: Walk,
}

// Inside the crate: a high word with a one ahead.
#[derive(Clone, Copy)]
struct Ahead {
    base: usize,
    rest: u64,
}

// Inside the crate: the place of a one, and the ones after it.
#[derive(Clone, Copy)]
struct One {
    place: usize,
    base: usize,
    rest: u64,
}

// The walk from a number on from which there is no value.
pub fn ended(k: usize) -> Walk
    ensures { result ≡ record { number = k; base = 0; rest = 0; lows = 1 } }
{
    Walk {
        number: k,
        base: 0,
        rest: 0,
        lows: 1,
    }
}

// The walk from the value with the number k on, whose one stands at `place`.
pub fn begin_at(image: &Image, k: usize, place: usize) -> Walk
    requires { OneAt image.now.words.now image.now.parts k place }
    ensures { WalkOver image.now.words.now image.now.parts result × (result.number ≡ k) }
{
    let start = image.parts.low_at;
    let ones = walk_from(&image.words[6..start], place);
    Walk {
        number: k,
        base: place / WORD_LEN * WORD_LEN,
        rest: ones.buf,
        lows: 1,
    }
}

// The walk from the value with the number k on.
pub fn begin(image: &Image, k: usize) -> Walk
    ensures { WalkOver image.now.words.now image.now.parts result × (result.number ≡ k) }
{
    if k >= image.parts.num_pushed as usize {
        return ended(k);
    }
    begin_at(image, k, one_at(image, k))
}

// The high word with the one of the next value, which there is.
fn ahead_of(image: &Image, w: Walk) -> Ahead
    requires { WalkOver image.now.words.now image.now.parts w × (w.number < image.now.parts.num_pushed) }
    ensures { OnesAhead image.now.words.now image.now.parts w.number result.base result.rest × (result.rest ≡ 0 → ⊥) }
{
    let base = w.base;
    let rest = w.rest;
    if rest != 0 {
        return Ahead { base, rest };
    }
    let start = image.parts.low_at;
    let high = &image.words[6..start];
    let at = skip_zeros(high, base / WORD_LEN + 1, words_for(image.parts.high_len));
    Ahead {
        base: at * WORD_LEN,
        rest: high[at],
    }
}

// The one of the next value, which there is, and the ones after it.
fn take_one(image: &Image, w: Walk) -> One
    requires { WalkOver image.now.words.now image.now.parts w × (w.number < image.now.parts.num_pushed) }
    ensures { OneTaken image.now.words.now image.now.parts w result }
{
    let Ahead { base, rest } = ahead_of(image, w);
    One {
        place: base + lsb(rest).unwrap(),
        base,
        rest: rest & (rest - 1),
    }
}

// The low bits from those of the next value on, with all of its own.
fn lows_of(image: &Image, w: Walk) -> u64
    requires { WalkOver image.now.words.now image.now.parts w × (w.number < image.now.parts.num_pushed) }
    ensures { LowsAhead (low_part image.now.words.now image.now.parts) (w.number * image.now.parts.low_len) result × (result / 2 ^ image.now.parts.low_len ≡ 0 → ⊥) }
{
    if w.lows >> image.parts.low_len != 0 {
        return w.lows;
    }
    let start = image.parts.low_at;
    let end = image.parts.ones_at;
    bits_at(&image.words[start..end], w.number * image.parts.low_len) | 0x8000_0000_0000_0000
}

// The next value, which there is.
pub fn take(image: &Image, w: Walk) -> Taken
    requires { WalkOver image.now.words.now image.now.parts w × (w.number < image.now.parts.num_pushed) }
    ensures { WalkOver image.now.words.now image.now.parts result.walk × (result.walk.number ≡ suc w.number) × (result.value ≡ get_or (times image.now.words.now) w.number 0) }
{
    let one = take_one(image, w);
    let lows = lows_of(image, w);
    let low = lows & ((1 << image.parts.low_len) - 1);
    Taken {
        value: (((one.place - w.number) as u64) << image.parts.low_len) + low,
        walk: Walk {
            number: w.number + 1,
            base: one.base,
            rest: one.rest,
            lows: lows >> image.parts.low_len,
        },
    }
}

// The next value, or none, and none again.
pub fn next(image: &Image, w: Walk) -> ValueStep
    requires { WalkOver image.now.words.now image.now.parts w }
    ensures { WalkOver image.now.words.now image.now.parts result.walk × (of_value_step result ≡ value_step_of (times image.now.words.now) w.number) }
{
    if w.number >= image.parts.num_pushed as usize {
        return ValueStep {
            value: None,
            walk: w,
        };
    }
    let t = take(image, w);
    let rest = t.walk;
    ValueStep {
        value: Some(t.value),
        walk: rest,
    }
}
