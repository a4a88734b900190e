// Writing a record into lent words: `new` zeroes them, `push` files one value, `build` makes an image of them; `limit` says how many words are enough, and `resume`
// whether a builder and words that were stored can be gone on with.
//
// `push` takes constant time; `new`, `resume` and `build` take time linear in the words. Nothing is allocated. The builder is a plain value, and may
// be any: one that no run could hold is refused.
ghost use Rattle.std.specs.Prelude.{◌≡◌, length};
ghost use Rattle.errors.specs.Answer.{of_result};
ghost use Rattle.elias_fano.specs.Made.{nobody, of_pushed, of_built};
ghost use Rattle.elias_fano.specs.Steps.{limit_of, new_of, sound, filed, push_of, intact, build_of, zeros, resume_of};
ghost use Rattle.elias_fano.specs.Testing.{TestsNew, Roomy, TestsBuilder, Fileable, TestsPush, TestsBuild};

use crate::finish::{has_room, write_image};
use bit_words::{WORD_LEN, fill, put_bits, set_one};
use elias_fano_words::check::check;
use elias_fano_words::sizes::{MAX_VALS, Sizes, limit_of, of_record};
use errors::Refusal;

// How far a record is written. The words are the caller's.
#[derive(Clone, Copy)]
pub struct Builder {
    pub universe: u64,
    pub num_vals: u64,
    pub num_pushed: u64,
    pub last: u64,
}

// How many words are enough for every record of these settings (document 02 (vii)): in so many no start and no push is refused for want of words, nor a build with
// this choice; with `rank`, nor one without it.
pub fn limit(universe: u64, num_vals: u64, rank: bool) -> Result<usize, Refusal>
    ensures { of_result result ≡ limit_of universe num_vals rank }
{
    if num_vals == 0 {
        return Err(Refusal::NoValues);
    }
    if num_vals > MAX_VALS {
        return Err(Refusal::TooMany);
    }
    let s = of_record(universe, num_vals);
    Ok(limit_of(s, num_vals as usize, rank))
}

// Begins a record of up to `num_vals` values below `universe` (document 01: a start).
pub fn new(universe: u64, num_vals: u64, buffer: &mut [u64]) -> Result<Builder, Refusal>
    ensures { of_pushed nobody result buffer.new ≡ new_of universe num_vals buffer.old }
{
    let s = test_new(universe, num_vals, buffer.len())?;
    fill(&mut *buffer, s.start_len, 0);
    Ok(Builder {
        universe,
        num_vals,
        num_pushed: 0,
        last: 0,
    })
}

// Files one value more, which must not be below the last (document 01: a reading). (The builder and its words are apart, here and
// below: either may be handed in damaged, and 7 is decided by both.)
pub fn push(b: Builder, val: u64, buffer: &mut [u64]) -> Result<Builder, Refusal>
    ensures { of_pushed b result buffer.new ≡ push_of b val buffer.old }
{
    let s = test_push(b, val, buffer.len())?;
    file(b, val, s, &mut *buffer);
    Ok(Builder {
        num_pushed: b.num_pushed + 1,
        last: val,
        ..b
    })
}

// Makes an image of the words (document 01: a finish), with an index over the zeros for `rank`, if they hold nothing but the values that were pushed.
// (`rank` is a flag: the choice of a finish.)
pub fn build(b: Builder, rank: bool, buffer: &mut [u64]) -> Result<usize, Refusal>
    ensures { of_built b result buffer.new ≡ build_of b rank buffer.old }
{
    let s = test_build(b, rank, &*buffer)?;
    Ok(write_image(&mut *buffer, b, rank, s))
}

// Goes on with a record whose builder and words were stored, as after a power cut: the builder again, if some run leaves it and these words of its start. Nothing is written.
pub fn resume(b: Builder, words: &[u64]) -> Result<Builder, Refusal>
    ensures { of_pushed b result words.now ≡ resume_of b words.now }
{
    let s = test_builder(b, words.len())?;
    resume_by(b, s, words)
}

// The tests of a start with len words.
fn test_new(universe: u64, num_vals: u64, len: usize) -> Result<Sizes, Refusal>
    ensures { TestsNew universe num_vals len result }
{
    if num_vals == 0 {
        return Err(Refusal::NoValues);
    }
    if num_vals > MAX_VALS {
        return Err(Refusal::TooMany);
    }
    let s = of_record(universe, num_vals);
    if len < s.start_len {
        return Err(Refusal::ShortBuffer);
    }
    Ok(s)
}

// Whether a run could hold these numbers.
fn is_sound(b: Builder) -> bool
    ensures { result ≡ sound b }
{
    if b.num_vals == 0 {
        return false;
    }
    if b.num_vals > MAX_VALS {
        return false;
    }
    if b.num_pushed > b.num_vals {
        return false;
    }
    if b.num_pushed == 0 {
        return b.last == 0;
    }
    b.last < b.universe
}

// The tests that a reading and a finish begin with.
fn test_builder(b: Builder, len: usize) -> Result<Sizes, Refusal>
    ensures { TestsBuilder b len result }
{
    if !is_sound(b) {
        return Err(Refusal::Invalid);
    }
    let s = of_record(b.universe, b.num_vals);
    if len < s.start_len {
        return Err(Refusal::ShortBuffer);
    }
    Ok(s)
}

// The tests of a value, of which nothing is computed: s is handed on.
fn test_value(b: Builder, val: u64, s: Sizes, len: usize) -> Result<Sizes, Refusal>
    requires { Roomy b len s }
    ensures { TestsPush b val len result }
{
    if val < b.last {
        return Err(Refusal::Decreasing);
    }
    if val >= b.universe {
        return Err(Refusal::OutOfUniverse);
    }
    if b.num_pushed == b.num_vals {
        return Err(Refusal::Full);
    }
    Ok(s)
}

// The tests of a reading with len words.
fn test_push(b: Builder, val: u64, len: usize) -> Result<Sizes, Refusal>
    ensures { TestsPush b val len result }
{
    let s = test_builder(b, len)?;
    test_value(b, val, s, len)
}

// Files the next value: its one high bit, and its low bits.
pub fn file(b: Builder, val: u64, s: Sizes, buffer: &mut [u64])
    requires { Fileable b val (length buffer.old) s }
    ensures { buffer.new ≡ filed b.universe b.num_vals b.num_pushed val buffer.old }
{
    let low = s.low_len;
    let at = b.num_pushed as usize;
    let upper = val >> low;
    set_one(&mut *buffer, WORD_LEN * 6 + (upper as usize + at));
    put_bits(
        &mut *buffer,
        WORD_LEN * s.low_at + at * low,
        val - (upper << low),
        low,
    );
}

// Whether the words hold as many values as were pushed, in order, with the last one last, and nothing else.
fn is_intact(b: Builder, s: Sizes, words: &[u64]) -> bool
    requires { Roomy b (length words.now) s }
    ensures { result ≡ intact b words.now }
{
    let start = s.start_len;
    let last = check(
        &words[6..start],
        b.universe,
        b.num_vals,
        b.num_pushed,
        s.low_len,
        s.high_len,
        false,
    );
    last == Some(b.last)
}

// Whether all words are 0.
fn are_zeros(words: &[u64]) -> bool
    ensures { result ≡ zeros words.now }
{
    words.iter().all(|w| *w == 0)
}

// The builder again, by the words: those of the header are 0 before a finish.
fn resume_by(b: Builder, s: Sizes, words: &[u64]) -> Result<Builder, Refusal>
    requires { Roomy b (length words.now) s }
    ensures { of_pushed b result words.now ≡ resume_of b words.now }
{
    if !are_zeros(&words[..6]) {
        return Err(Refusal::Invalid);
    }
    if !is_intact(b, s, words) {
        return Err(Refusal::Invalid);
    }
    Ok(b)
}

// The tests of the words, and of the length of the image that they become.
fn test_image(b: Builder, rank: bool, s: Sizes, words: &[u64]) -> Result<Sizes, Refusal>
    requires { Roomy b (length words.now) s }
    ensures { TestsBuild b rank words.now result }
{
    if !is_intact(b, s, words) {
        return Err(Refusal::Invalid);
    }
    if !has_room(words, b, rank, s) {
        return Err(Refusal::ShortBuffer);
    }
    Ok(s)
}

// The tests of a finish.
fn test_build(b: Builder, rank: bool, words: &[u64]) -> Result<Sizes, Refusal>
    ensures { TestsBuild b rank words.now result }
{
    let s = test_builder(b, words.len())?;
    test_image(b, rank, s, words)
}
