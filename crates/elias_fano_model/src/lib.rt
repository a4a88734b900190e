// Lists of calls on a record, performed one after the other as the model has them.
#![tactic(auto)]

ghost use Rattle.std.specs.Prelude.{◌≡◌, List, ℕ, ◌+◌, ◌*◌, ◌/◌, ◌<◌, length};
ghost use Rattle.elias_fano.specs.Made.{made, of_pushed, of_built};
ghost use Rattle.elias_fano_model.specs.Demand3.{step_of, closes};
ghost use Rattle.elias_fano_model.specs.Run.{call_of, kind_of, value_of, of_reply, of_ran, ended, left, run_of};
ghost use Rattle.elias_fano_model.specs.Going.{filed_at, went_on};

use elias_fano::builder::{Builder, build, new, push};
use errors::Refusal;

// The answer of a call.
#[derive(Clone, Copy)]
pub enum Reply {
    Done,
    Value(usize),
    Refused(Refusal),
}

// What a call leaves of the builder, and its answer.
#[derive(Clone, Copy)]
pub struct Turn {
    pub builder: Builder,
    pub reply: Reply,
}

// The last builder, and how many calls were answered, the start among them.
#[derive(Clone, Copy)]
pub struct Ended {
    pub builder: Builder,
    pub count: usize,
}

fn pushed(b: Builder, p: Result<Builder, Refusal>) -> Turn
    ensures { (w : List ℕ) → made (of_reply result.reply) result.builder w ≡ of_pushed b p w }
{
    match p {
        Ok(next) => Turn {
            builder: next,
            reply: Reply::Done,
        },
        Err(e) => Turn {
            builder: b,
            reply: Reply::Refused(e),
        },
    }
}

fn built(b: Builder, p: Result<usize, Refusal>) -> Turn
    ensures { (w : List ℕ) → made (of_reply result.reply) result.builder w ≡ of_built b p w }
{
    match p {
        Ok(k) => Turn {
            builder: b,
            reply: Reply::Value(k),
        },
        Err(e) => Turn {
            builder: b,
            reply: Reply::Refused(e),
        },
    }
}

// One call of a list. (Its kind is a number: a list of calls is words, and `call_of` reads them.)
fn call(b: Builder, kind: u64, arg: u64, buffer: &mut [u64]) -> Turn
    ensures { made (of_reply result.reply) result.builder buffer.new ≡ step_of b buffer.old (call_of kind arg) }
{
    if kind == 0 {
        return pushed(b, push(b, arg, &mut *buffer));
    }
    built(b, build(b, arg == 1, &mut *buffer))
}

// Whether a reply ends the list.
fn is_last(r: Reply) -> bool
    ensures { result ≡ closes (of_reply r) }
{
    match r {
        Reply::Done => false,
        Reply::Value(_k) => true,
        Reply::Refused(_e) => false,
    }
}

// The words of a reply, as `kind_of` and `value_of` of the specs have them.
fn kind_of(r: Reply) -> u64
    ensures { result ≡ kind_of (of_reply r) }
{
    match r {
        Reply::Done => 0,
        Reply::Value(_k) => 1,
        Reply::Refused(_e) => 2,
    }
}

fn value_of(r: Reply) -> u64
    ensures { result ≡ value_of (of_reply r) }
{
    match r {
        Reply::Done => 0,
        Reply::Value(k) => k as u64,
        Reply::Refused(e) => u64::from(e),
    }
}

// Files the answer with the number k.
fn file(answers: &mut [u64], k: usize, r: Reply)
    requires { 2 * k + 1 < length answers.old }
    ensures { answers.new ≡ filed_at answers.old k (of_reply r) }
{
    answers[2 * k] = kind_of(r);
    answers[2 * k + 1] = value_of(r);
}

// The calls, up to the first accepted build.
fn perform(first: Builder, calls: &[u64], buffer: &mut [u64], answers: &mut [u64]) -> Ended
    requires { length calls.now / 2 < length answers.old / 2 }
    ensures { left (ended result.builder result.count) buffer.new answers.new ≡ went_on first buffer.old answers.old calls.now }
{
    file(&mut *answers, 0, Reply::Done);
    let mut b = first;
    for k in 0..calls.len() / 2 {
        let s = call(b, calls[2 * k], calls[2 * k + 1], &mut *buffer);
        b = s.builder;
        file(&mut *answers, k + 1, s.reply);
        if is_last(s.reply) {
            return Ended {
                builder: b,
                count: k + 2,
            };
        }
    }
    Ended {
        builder: b,
        count: calls.len() / 2 + 1,
    }
}

// Begins a record and performs a list of calls on it, two words to a call. Each answer is filed, two words to an answer.
pub fn run(
    universe: u64,
    num_vals: u64,
    calls: &[u64],
    buffer: &mut [u64],
    answers: &mut [u64],
) -> Result<Ended, Refusal>
    ensures { left (of_ran result) buffer.new answers.new ≡ run_of universe num_vals calls.now buffer.old answers.old }
{
    if answers.len() / 2 <= calls.len() / 2 {
        return Err(Refusal::ShortBuffer);
    }
    let b = new(universe, num_vals, &mut *buffer)?;
    Ok(perform(b, calls, &mut *buffer, &mut *answers))
}
