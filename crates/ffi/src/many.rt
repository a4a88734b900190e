// Questions by the many: the image is opened once a call; each question then costs what it costs of an opened image.
// C has no closures, so each question is an exported function of its own, which is one call.
ghost use Rattle.std.specs.Prelude.{◌≡◌, true, ◌∷◌, ◌++◌, ◌+◌, ◌*◌, ◌<◌, ℕ, length, take as take_list, drop};
ghost use Rattle.errors.specs.Answer.{Answer, value, leaves};
ghost use Rattle.elias_fano.specs.Ask.{Select, Delta, Rank, Predecessor, Successor, Binsearch, Question, asked};
ghost use Rattle.ffi.specs.Answers.{ef_answer};
ghost use Rattle.ffi.specs.Many.{Answering, many_if, many_of};

use crate::EfAnswer;
use crate::tell::Tell;
use elias_fano::image::select_opened;
use elias_fano::opened::Image;
use elias_fano_queries::delta::delta_opened;
use elias_fano_queries::neighbours::{predecessor_opened, successor_opened};
use elias_fano_queries::rank::rank_opened;
use elias_fano_walk::search::binsearch_opened;
use errors::Refusal;

// The answer with the number i takes the words 2 i and 2 i + 1.
fn put(out: &mut [u64], i: usize, a: EfAnswer)
    requires { 2 * i + 1 < length out.old }
    ensures { out.new ≡ take_list (2 * i) out.old ++ a.kind ∷ a.value ∷ drop (2 * i + 2) out.old }
{
    out[2 * i] = a.kind;
    out[2 * i + 1] = a.value;
}

// As many answers as both arrays hold, and how many; the later words stay.
pub fn answer_each<F: Fn(u64) -> EfAnswer>(answer: F, args: &[u64], out: &mut [u64]) -> usize
    requires { F.IsAlwaysCallable answer }
    ensures { (f : ℕ → Answer) → Answering F.post answer f → leaves (value result) out.new ≡ many_if true f args.now out.old }
{
    let count = args.len().min(out.len() / 2);
    for i in 0..count {
        put(&mut *out, i, answer(args[i]));
    }
    count
}

// The answers to all questions of an image, which is opened once.
fn answer_all<F: Fn(&Image, u64) -> EfAnswer>(
    answer: F,
    words: &[u64],
    args: &[u64],
    out: &mut [u64],
) -> EfAnswer
    requires { F.IsAlwaysCallable answer }
    ensures { (q : ℕ → Question) → ((i : _) (x : ℕ) (r : EfAnswer) → F.post answer i x r → r ≡ ef_answer (asked i.now.words.now (q x))) → (result ≡ ef_answer (many_of words.now q args.now out.old).answer) × (out.new ≡ (many_of words.now q args.now out.old).words) }
{
    match Image::open(words) {
        Ok(image) => answer_each(
            |x: u64| -> EfAnswer
                requires { F.IsAlwaysCallable answer }
                ensures { (y : Answer) → ((i : _) → i.now ≡ image.entry → F.post answer i x result → result ≡ ef_answer y) → result ≡ ef_answer y }
            { answer(&image, x) },
            args,
            &mut *out,
        )
        .tell(),
        Err(e) => Err::<u64, Refusal>(e).tell(),
    }
}

// The values with these numbers.
#[unsafe(no_mangle)]
pub extern "C" fn ef_selects(words: &[u64], ks: &[u64], out: &mut [u64]) -> EfAnswer
    ensures { (result ≡ ef_answer (many_of words.now Select ks.now out.old).answer) × (out.new ≡ (many_of words.now Select ks.now out.old).words) }
{
    answer_all(
        |image: &Image, x: u64|
            ensures { result ≡ ef_answer (asked image.now.words.now (Select x)) }
        { select_opened(image, x as usize).tell() },
        words,
        ks,
        &mut *out,
    )
}

// The values with these numbers, each less the one before it.
#[unsafe(no_mangle)]
pub extern "C" fn ef_deltas(words: &[u64], ks: &[u64], out: &mut [u64]) -> EfAnswer
    ensures { (result ≡ ef_answer (many_of words.now Delta ks.now out.old).answer) × (out.new ≡ (many_of words.now Delta ks.now out.old).words) }
{
    answer_all(
        |image: &Image, x: u64|
            ensures { result ≡ ef_answer (asked image.now.words.now (Delta x)) }
        { delta_opened(image, x as usize).tell() },
        words,
        ks,
        &mut *out,
    )
}

// How many values are below each of these.
#[unsafe(no_mangle)]
pub extern "C" fn ef_ranks(words: &[u64], vals: &[u64], out: &mut [u64]) -> EfAnswer
    ensures { (result ≡ ef_answer (many_of words.now Rank vals.now out.old).answer) × (out.new ≡ (many_of words.now Rank vals.now out.old).words) }
{
    answer_all(
        |image: &Image, x: u64|
            ensures { result ≡ ef_answer (asked image.now.words.now (Rank x)) }
        { rank_opened(image, x).tell() },
        words,
        vals,
        &mut *out,
    )
}

// The greatest value at or below each of these.
#[unsafe(no_mangle)]
pub extern "C" fn ef_predecessors(words: &[u64], vals: &[u64], out: &mut [u64]) -> EfAnswer
    ensures { (result ≡ ef_answer (many_of words.now Predecessor vals.now out.old).answer) × (out.new ≡ (many_of words.now Predecessor vals.now out.old).words) }
{
    answer_all(
        |image: &Image, x: u64|
            ensures { result ≡ ef_answer (asked image.now.words.now (Predecessor x)) }
        { predecessor_opened(image, x).tell() },
        words,
        vals,
        &mut *out,
    )
}

// The smallest value at or above each of these.
#[unsafe(no_mangle)]
pub extern "C" fn ef_successors(words: &[u64], vals: &[u64], out: &mut [u64]) -> EfAnswer
    ensures { (result ≡ ef_answer (many_of words.now Successor vals.now out.old).answer) × (out.new ≡ (many_of words.now Successor vals.now out.old).words) }
{
    answer_all(
        |image: &Image, x: u64|
            ensures { result ≡ ef_answer (asked image.now.words.now (Successor x)) }
        { successor_opened(image, x).tell() },
        words,
        vals,
        &mut *out,
    )
}

// The number of a value that is each of these.
#[unsafe(no_mangle)]
pub extern "C" fn ef_binsearches(words: &[u64], vals: &[u64], out: &mut [u64]) -> EfAnswer
    ensures { (result ≡ ef_answer (many_of words.now Binsearch vals.now out.old).answer) × (out.new ≡ (many_of words.now Binsearch vals.now out.old).words) }
{
    answer_all(
        |image: &Image, x: u64|
            ensures { result ≡ ef_answer (asked image.now.words.now (Binsearch x)) }
        { binsearch_opened(image, x).tell() },
        words,
        vals,
        &mut *out,
    )
}
