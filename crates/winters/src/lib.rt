// Spans of time side by side, as winters: of each the number of values in it, the first, the last, and the shortest gap between two neighbours.
//
// The seconds s0 s1 .. are cut points: the spans are s0 to s1, s1 to s2 and so on. A value t is in the span from s to e if s <= t < e; a span that does not end after its beginning has
// none. The image is opened once. The first value of a span is found by the search's halving, and a walk goes on to its end: no rank index is needed.
#![tactic(auto)]

ghost use Rattle.std.specs.Prelude.{◌≡◌, [], ◌∷◌, ◌++◌, ◌+◌, ◌-◌, ◌*◌, ◌≤◌, length, take as take_list, drop};
ghost use Rattle.errors.specs.Answer.{leaves, of_result};
ghost use Rattle.elias_fano.specs.Accept.{times};
ghost use Rattle.elias_fano_walk.specs.Walking.{WalkOver};
ghost use Rattle.winters.specs.Adding.{NoneBelow, with_others};
ghost use Rattle.winters.specs.Winters.{in_span, summary_of, words_of, span_words, compare_answer, compare_of};

use elias_fano::opened::Image;
use elias_fano_walk::search::begin_from;
use elias_fano_walk::walk::{Walk, take};
use errors::Refusal;

// What is told of the values of a span; 0 where there is none, and for the gap where there are not two.
#[derive(Clone, Copy)]
pub struct Summary {
    pub count: usize,
    pub first: u64,
    pub last: u64,
    pub gap: u64,
}

// The summary where there is no value.
fn nothing() -> Summary
    ensures { result ≡ summary_of [] }
{
    Summary {
        count: 0,
        first: 0,
        last: 0,
        gap: 0,
    }
}

// The summary of a value and n others after it; one value alone has no gap.
fn with_others(first: u64, n: usize, last: u64, gap: u64) -> Summary
    requires { n ≤ 16777216 }
    ensures { result ≡ with_others first n last gap }
{
    if n == 0 {
        return Summary {
            count: 1,
            first,
            last,
            gap: 0,
        };
    }
    Summary {
        count: n + 1,
        first,
        last,
        gap,
    }
}

// The summary of the value `first` and of those from the walk's on and below e. The gap begins with e, which is above every gap.
// A loop, no chain: a step takes the image and the walk, and leaves a new walk.
fn summarize_after(image: &Image, first: u64, from: Walk, e: u64) -> Summary
    requires { WalkOver image.now.words.now image.now.parts from × NoneBelow first (drop from.number (times image.now.words.now)) }
    ensures { result ≡ summary_of (first ∷ in_span 0 e (drop from.number (times image.now.words.now))) }
{
    let end = image.parts.num_pushed as usize;
    let mut w = from;
    let mut last = first;
    let mut gap = e;
    for _ in from.number..end {
        let t = take(image, w);
        let x = t.value;
        if e <= x {
            return with_others(first, w.number - from.number, last, gap);
        }
        gap = gap.min(x - last);
        last = x;
        w = t.walk;
    }
    with_others(first, w.number - from.number, last, gap)
}

// The summary of the values from the walk's on and below e.
fn summarize_on(image: &Image, from: Walk, e: u64) -> Summary
    requires { WalkOver image.now.words.now image.now.parts from }
    ensures { result ≡ summary_of (in_span 0 e (drop from.number (times image.now.words.now))) }
{
    if image.parts.num_pushed as usize <= from.number {
        return nothing();
    }
    let t = take(image, from);
    let first = t.value;
    if e <= first {
        return nothing();
    }
    let rest = t.walk;
    summarize_after(image, first, rest, e)
}

// The summary of the values from s on and below e.
fn summarize(image: &Image, s: u64, e: u64) -> Summary
    ensures { result ≡ summary_of (in_span s e (times image.now.words.now)) }
{
    let from = begin_from(image, s);
    summarize_on(image, from, e)
}

// The summary's four words, from the word `at` on.
fn put(out: &mut [u64], at: usize, s: Summary)
    requires { at + 4 ≤ length out.old }
    ensures { out.new ≡ take_list at out.old ++ words_of s ++ drop (at + 4) out.old }
{
    out[at..at + 4].copy_from_slice(&[s.count as u64, s.first, s.last, s.gap]);
}

// Four words for each of the first `count` spans; the later words stay.
fn compare_all(image: &Image, seconds: &[u64], count: usize, out: &mut [u64])
    requires { (count ≡ length seconds.now - 1) × (4 * count ≤ length out.old) }
    ensures { out.new ≡ span_words (times image.now.words.now) seconds.now ++ drop (4 * count) out.old }
{
    for i in 0..count {
        let s = summarize(image, seconds[i], seconds[i + 1]);
        put(&mut *out, 4 * i, s);
    }
}

// The spans of an opened image.
fn compare_accepted(image: &Image, seconds: &[u64], out: &mut [u64]) -> Result<usize, Refusal>
    ensures { leaves (of_result result) out.new ≡ compare_answer (times image.now.words.now) seconds.now out.old }
{
    let count = seconds.len().saturating_sub(1);
    if out.len() / 4 < count {
        return Err(Refusal::ShortBuffer);
    }
    compare_all(image, seconds, count, &mut *out);
    Ok(count)
}

// The spans that the seconds cut, four words each; how many were written. The later words stay.
pub fn compare(image: &[u64], seconds: &[u64], out: &mut [u64]) -> Result<usize, Refusal>
    ensures { leaves (of_result result) out.new ≡ compare_of image.now seconds.now out.old }
{
    let image = Image::open(image)?;
    compare_accepted(&image, seconds, &mut *out)
}
