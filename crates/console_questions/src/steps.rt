// A walk over a list of numbers, and the answers of its steps.
ghost use Rattle.std.specs.Prelude.{◌≡◌, List, ℕ};
ghost use Rattle.elias_fano_walk.specs.Walking.{value_step_of};
ghost use Rattle.console_text.specs.Held.{held};
ghost use Rattle.console_text.specs.Says.{answers, says_of};
ghost use Rattle.console_questions.specs.Questions.{with_each, with_answers, nexts_from};

use console_text::output::{Output, Reply};

pub trait Steps {
    // That it may go on, what is walked over, and the number of the next.
    ghost ready: { Self → Type 0 };

    ghost over: { Self → List ℕ };

    ghost number: { Self → ℕ };

    // The next, or none, and none again.
    fn step(&mut self) -> Reply
        requires { ready self.old }
        ensures ready { ready self.new }
        ensures says { says_of result ≡ answers (value_step_of (over self.old) (number self.old)).answer }
        ensures number { number self.new ≡ (value_step_of (over self.old) (number self.old)).number }
        ensures over { over self.new ≡ over self.old };
}

// The next `count` answers, each after a space.
fn rest<S: Steps>(walk: &mut S, count: usize, out: &mut Output)
    requires { S.ready walk.old }
    ensures { held out.new ≡ with_each (held out.old) (nexts_from (S.over walk.old) (S.number walk.old) count) }
{
    for _ in 0..count {
        let reply = walk.step();
        out.byte(b' ');
        out.answer(reply);
    }
}

// The next `count` answers with a space between them.
pub fn walked<S: Steps>(walk: &mut S, count: usize, out: &mut Output)
    requires { S.ready walk.old }
    ensures { held out.new ≡ with_answers (held out.old) (nexts_from (S.over walk.old) (S.number walk.old) count) }
{
    if count == 0 {
        return;
    }
    let reply = walk.step();
    out.answer(reply);
    rest(walk, count - 1, out);
}
