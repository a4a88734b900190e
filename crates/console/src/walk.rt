// `unary P STEP..`: a walk over the ones from P, with one answer for each step.
ghost use Rattle.std.specs.Prelude.{◌≤◌, ◌<◌, length, IfSome};

use bit_vectors::unary;
use bit_vectors::unary::Unary;
use console_text::line::word_end;
use console_text::output::{Output, Reply};
use console_text::reply::ToReply;

#[derive(Clone, Copy, Debug, PartialEq, Eq)]
enum Step {
    Skip1(u64),
    Skip0(u64),
    Next,
    Position,
}

// The number after the space at `at`, and where it ends.
fn number_at(line: &[u8], at: usize) -> Option<(u64, usize)>
    requires { at ≤ length line.now }
    ensures { IfSome result (λ p. (at < p.1) × (p.1 ≤ length line.now)) }
{
    if at == line.len() {
        return None;
    }
    let start = at + 1;
    let end = word_end(line, start);
    let k = decimal::parse(&line[start..end]).ok()?;
    Some((k, end))
}

// The step after the space at `at`, and where it ends.
fn step_at(line: &[u8], at: usize) -> Option<(Step, usize)>
    requires { at < length line.now }
    ensures { IfSome result (λ p. (at < p.1) × (p.1 ≤ length line.now)) }
{
    let start = at + 1;
    let end = word_end(line, start);
    match &line[start..end] {
        b"skip1" => {
            let (k, end) = number_at(line, end)?;
            Some((Step::Skip1(k), end))
        }
        b"skip0" => {
            let (k, end) = number_at(line, end)?;
            Some((Step::Skip0(k), end))
        }
        b"next" => Some((Step::Next, end)),
        b"position" => Some((Step::Position, end)),
        _ => None,
    }
}

// Whether steps alone follow the word that ends at `end`. Here and below the loop goes by the place: a step is one word or two, so a walk over words is no plainer.
fn all_steps(line: &[u8], end: usize) -> bool {
    let mut at = end;
    while at < line.len() {
        let Some((_, next)) = step_at(line, at) else {
            return false;
        };
        at = next;
    }
    true
}

// One step of the walk.
fn taken(words: &[u64], len: usize, w: &mut Unary, step: Step) -> Reply {
    let t = match step {
        Step::Skip1(k) => unary::skip1(words, len, *w, k as usize),
        Step::Skip0(k) => unary::skip0(words, len, *w, k as usize),
        Step::Next => unary::next(words, len, *w),
        Step::Position => return unary::position(*w).reply(),
    };
    *w = t.walk;
    t.place.reply()
}

// The steps after the word that ends at `end`, with a space between their answers.
fn walked(line: &[u8], end: usize, words: &[u64], len: usize, first: Unary, out: &mut Output) {
    let mut w = first;
    let mut at = end;
    while at < line.len() {
        let Some((step, next)) = step_at(line, at) else {
            break;
        };
        if end < at {
            out.byte(b' ');
        }
        out.answer(taken(words, len, &mut w, step));
        at = next;
    }
    out.line_end();
}

// The start P after the word that ends at `end`, and where it ends; None where steps alone do not follow it.
fn start_of(line: &[u8], end: usize) -> Option<(u64, usize)>
    requires { end ≤ length line.now }
{
    number_at(line, end).filter(|p| all_steps(line, p.1))
}

// The whole command, of which `end` is the end of the first word: the pair that the clauses of `numbers` and `store` name.
pub fn answer(line: &[u8], end: usize, words: &[u64], len: usize, out: &mut Output)
    requires { end ≤ length line.now }
{
    let Some((p, at)) = start_of(line, end) else {
        return out.reply_line(Reply::Bad);
    };
    match unary::new(words, len, p as usize) {
        Ok(w) => walked(line, at, words, len, w, out),
        Err(r) => out.reply_line(Reply::Refused(r)),
    }
}
