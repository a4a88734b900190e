// How many values of a span fall into weekly windows (document 02: starts inside weekly heating windows).
//
// A window is two words, a and b, seconds of the week of 604,800 with a below b and b at most 604,800; a belongs to it, b does not. There are 32 at most, in any order, and they may
// overlap. The windows are put in order once; the first value of the span is found by the search's halving, and a walk goes on to its end. A value costs a step of the walk, a
// remainder and a comparison or two. No rank index is needed.
#![tactic(auto)]

ghost use Rattle.std.specs.Prelude.{◌≡◌, true, take as take_list, drop};
ghost use Rattle.errors.specs.Answer.{of_result};
ghost use Rattle.elias_fano.specs.Accept.{times};
ghost use Rattle.elias_fano_walk.specs.Walking.{WalkOver};
ghost use Rattle.weekly_windows.specs.Windows.{are_windows, count_in, count_answer, count_of};

mod order;

use crate::order::{Cuts, are_windows, order as put_in_order, part_starts};
use elias_fano::opened::Image;
use elias_fano_walk::search::begin_from;
use elias_fano_walk::walk::{Walk, take};
use errors::Refusal;

// How many values from the walk's on and below e are in the windows. A loop, no chain: a step takes the image and the walk, and leaves a new walk.
fn count_on(image: &Image, from: Walk, e: u64, cuts: &Cuts) -> usize
    requires { WalkOver image.now.words.now image.now.parts from }
    ensures { result ≡ count_in (take_list cuts.now.n cuts.now.at.now) 0 e (drop from.number (times image.now.words.now)) }
{
    let end = image.parts.num_pushed as usize;
    let mut w = from;
    let mut count: usize = 0;
    for _ in from.number..end {
        let t = take(image, w);
        let x = t.value;
        if e <= x {
            return count;
        }
        count += cuts.is_inside(x);
        w = t.walk;
    }
    count
}

// The same with the windows as they were handed in.
fn count_within(image: &Image, from: Walk, e: u64, windows: &[u64]) -> usize
    requires { WalkOver image.now.words.now image.now.parts from × (are_windows windows.now ≡ true) }
    ensures { result ≡ count_in windows.now 0 e (drop from.number (times image.now.words.now)) }
{
    let mut at = [0u64; 65]; // no heap
    let n = put_in_order(windows, &mut at);
    let mut first = [0usize; 148]; // no heap
    part_starts(&at, n, &mut first);
    let cuts = Cuts {
        at: &at,
        n,
        first: &first,
    };
    count_on(image, from, e, &cuts)
}

// How many values from s on and below e are in the windows, of an opened image; 17 where the words are no windows.
pub fn count_opened(image: &Image, windows: &[u64], s: u64, e: u64) -> Result<usize, Refusal>
    ensures { of_result result ≡ count_answer (times image.now.words.now) windows.now s e }
{
    if !are_windows(windows) {
        return Err(Refusal::InvalidWindows);
    }
    if e <= s {
        return Ok(0);
    }
    let from = begin_from(image, s);
    Ok(count_within(image, from, e, windows))
}

// How many values from s on and below e are in the windows.
pub fn count(image: &[u64], windows: &[u64], s: u64, e: u64) -> Result<usize, Refusal>
    ensures { of_result result ≡ count_of image.now windows.now s e }
{
    let image = Image::open(image)?;
    count_opened(&image, windows, s, e)
}
