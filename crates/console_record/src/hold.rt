// The commands that set what is held, and ask nothing of a record.
ghost use Rattle.std.specs.Prelude.{◌≡◌, ℕ, List};
ghost use Rattle.console_text.specs.Says.{says_of};
ghost use Rattle.console_record.specs.Section.{turn, lending, lend_of, forge_of, image_of};

use crate::Record;
use bit_words::fill;
use console_text::line::Arguments;
use console_text::output::Reply;
use elias_fano::builder::Builder;

// A buffer of n words: the builder is all zero, and the image has no words.
pub fn lending(n: usize) -> Record
    ensures { result ≡ lending n }
{
    Record {
        lent: n,
        image: 0,
        builder: Builder {
            universe: 0,
            num_vals: 0,
            num_pushed: 0,
            last: 0,
        },
    }
}

// `buffer W V`, where there are so many words.
pub fn lend(buffer: &mut [u64], n: usize, x: u64, s: &mut Record) -> Reply
    ensures { turn (says_of result) s.new buffer.new ≡ lend_of n x s.old buffer.old }
{
    if buffer.len() < n {
        return Reply::Bad;
    }
    fill(&mut *buffer, n, x);
    *s = lending(n);
    Reply::Done
}

// `forge U N M LAST`
pub fn forge(r: Arguments, s: &mut Record) -> Reply
    ensures { (w : List ℕ) → turn (says_of result) s.new w ≡ forge_of r s.old w }
{
    s.builder = Builder {
        universe: r.a,
        num_vals: r.b,
        num_pushed: r.c,
        last: r.d,
    };
    Reply::Done
}

// `image L`, of the words that are lent.
pub fn image(n: usize, s: &mut Record) -> Reply
    ensures { (w : List ℕ) → turn (says_of result) s.new w ≡ image_of n s.old w }
{
    if s.lent < n {
        return Reply::Bad;
    }
    s.image = n;
    Reply::Done
}
