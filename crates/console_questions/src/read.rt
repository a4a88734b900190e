// `read K COUNT`: how many times were read out from K, and then the words, which were 0 before.
ghost use Rattle.std.specs.Prelude.{◌≡◌, ◌≤◌};
ghost use Rattle.errors.specs.Answer.{of_result};
ghost use Rattle.elias_fano.specs.Ask.{read_from_of};
ghost use Rattle.console_text.specs.Held.{held};
ghost use Rattle.console_questions.specs.Questions.{with_words, with_read, read_of};

use console_text::output::Output;
use elias_fano_walk::read::read_from;
use errors::Refusal;

// What was read out, and the words after it.
fn told(n: Result<usize, Refusal>, words: &[u64], out: &mut Output)
    ensures { held out.new ≡ with_words (of_result n) words.now (held out.old) }
{
    match n {
        Ok(x) => {
            out.number(x as u64);
            out.list(words);
        }
        Err(e) => out.refusal(e),
    }
}

// Into all of the words.
fn into(image: &[u64], k: usize, words: &mut [u64], out: &mut Output)
    ensures { held out.new ≡ with_read (read_from_of image.now k words.old) (held out.old) }
{
    let n = read_from(image, k, &mut *words);
    told(n, words, out);
}

pub fn answer(image: &[u64], k: usize, count: usize, out: &mut Output)
    requires { count ≤ 4096 }
    ensures { held out.new ≡ read_of image.now k count (held out.old) }
{
    let mut words = [0u64; 4096]; // no heap
    into(image, k, &mut words[..count], out);
}
