// The commands that write into the lent words, and `resume`, which only reads them.
ghost use Rattle.std.specs.Prelude.{◌≡◌, ℕ, List};
ghost use Rattle.errors.specs.Answer.{of_result};
ghost use Rattle.elias_fano.specs.declared.builder.Builder.{Builder};
ghost use Rattle.elias_fano.specs.Made.{of_pushed};
ghost use Rattle.console_text.specs.Says.{answers, says_of};
ghost use Rattle.console_record.specs.Section.{turn, of_push, image_after, change_named, poke_of, change_of};

use crate::Record;
use crate::lent::Lent;
use console_text::line::Arguments;
use console_text::output::Reply;
use console_text::reply::ToReply;
use elias_fano::builder;
use elias_fano::builder::Builder;
use errors::Refusal;

// A builder that is handed back is held from then on.
fn pushed(b: Result<Builder, Refusal>, s: &mut Record) -> Reply
    ensures { (c : Builder) (w : List ℕ) → turn (says_of result) s.new w ≡ of_push s.old (of_pushed c b w) }
{
    match b {
        Ok(b) => {
            s.builder = b;
            Reply::Done
        }
        Err(e) => Reply::Refused(e),
    }
}

// The words of a finish are the image from then on.
pub fn built(words: Result<usize, Refusal>, s: &mut Record) -> Reply
    ensures says { says_of result ≡ answers (of_result words) }
    ensures image { s.new ≡ image_after (of_result words) s.old }
{
    if let Ok(n) = words {
        s.image = n;
    }
    words.reply()
}

// `poke I V`
fn poke(words: &mut [u64], i: usize, x: u64) -> Reply
    ensures { (s : Record) → turn (says_of result) s words.new ≡ poke_of i x s words.old }
{
    if i < words.len() {
        words[i] = x;
        return Reply::Done;
    }
    Reply::Bad
}

// What is done with the lent words.
#[derive(Clone, Copy, Debug, PartialEq, Eq)]
pub enum Change {
    Poke,
    Start,
    Reading,
    Finish,
    Resume,
}

impl Change {
    pub fn named(name: &[u8]) -> Option<Change>
        ensures { result ≡ change_named name.now }
    {
        match name {
            b"poke" => Some(Change::Poke),
            b"start" => Some(Change::Start),
            b"reading" => Some(Change::Reading),
            b"finish" => Some(Change::Finish),
            b"resume" => Some(Change::Resume),
            _ => None,
        }
    }
}

// A change with its numbers.
#[derive(Clone, Copy)]
pub struct Changed {
    pub change: Change,
    pub r: Arguments,
}

impl Lent for Changed {
    ghost leaves = { λ c s w. change_of c.change c.r s w };

    fn run(self, words: &mut [u64], s: &mut Record) -> Reply {
        let r = self.r;
        let b = s.builder;
        match self.change {
            Change::Poke => poke(words, r.a as usize, r.b),
            Change::Start => pushed(builder::new(r.a, r.b, words), s),
            Change::Reading => pushed(builder::push(b, r.a, words), s),
            Change::Finish => built(builder::build(b, r.a == 1, words), s),
            Change::Resume => pushed(builder::resume(b, &*words), s),
        }
    }
}
