// What is done with the lent words of the buffer.
ghost use Rattle.std.specs.Prelude.{◌≡◌, List, ℕ};
ghost use Rattle.console_text.specs.Says.{says_of};
ghost use Rattle.console_record.specs.declared.Record.{Record};
ghost use Rattle.console_record.specs.Section.{Turn, turn, within_of};

use crate::Record;
use console_text::output::Reply;

pub trait Lent {
    // What it says and leaves, of what is held and of the lent words.
    ghost leaves: { Self → Record → List ℕ → Turn };

    fn run(self, words: &mut [u64], s: &mut Record) -> Reply
        ensures { turn (says_of result) s.new words.new ≡ leaves self s.old words.old };
}

// Over the whole buffer, of which the first words are lent.
pub fn within<L: Lent + Drop>(lent: L, buffer: &mut [u64], s: &mut Record) -> Reply
    ensures { turn (says_of result) s.new buffer.new ≡ within_of (L.leaves lent) s.old buffer.old }
{
    let n = s.lent;
    if buffer.len() < n {
        return Reply::Bad;
    }
    lent.run(&mut buffer[..n], s)
}
