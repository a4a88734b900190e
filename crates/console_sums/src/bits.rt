// `from_bits C`: the record of the console's bits.
ghost use Rattle.std.specs.Prelude.{◌≡◌};
ghost use Rattle.elias_fano_from_bits.specs.FromBits.{from_bits_of};
ghost use Rattle.console_text.specs.Says.{says_if};
ghost use Rattle.console_record.specs.Section.{turn};
ghost use Rattle.console_sums.specs.Commands.{of_whole, fits_choice_of, from_bits_answer};

use console_record::lent::{Lent, within};
use console_record::{Record, alter};
use console_text::line::{Arguments, same};
use console_text::output::Reply;
use elias_fano_from_bits::build::from_bits;

// The first `len` bits of the words, and whether the record has the rank index.
#[derive(Clone, Copy)]
pub struct Bits<'a> {
    pub words: &'a [u64],
    pub len: usize,
    pub rank: bool,
}

impl<'a> Lent for Bits<'a> {
    ghost leaves = { λ b s w. of_whole s (from_bits_of b.words.now b.len b.rank w) };

    fn run(self, words: &mut [u64], s: &mut Record) -> Reply {
        alter::built(from_bits(self.words, self.len, self.rank, &mut *words), s)
    }
}

// One number, a choice.
pub fn fits_choice(r: Arguments) -> bool
    ensures { result ≡ fits_choice_of r }
{
    r.n == 1 && r.a < 2
}

// None: the name is another.
pub fn answer(
    name: &[u8],
    r: Arguments,
    words: &[u64],
    len: usize,
    buffer: &mut [u64],
    s: &mut Record,
) -> Option<Reply>
    ensures { turn (says_if result) s.new buffer.new ≡ from_bits_answer name.now r words.now len s.old buffer.old }
{
    if !same(name, b"from_bits") {
        return None;
    }
    if !fits_choice(r) {
        return Some(Reply::Bad);
    }
    let rank = r.a == 1;
    Some(within(Bits { words, len, rank }, buffer, s))
}
