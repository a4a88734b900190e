// The console's records by one call: prefix sums, built from the numbers of a line and asked by place, by a walk and for their number, and the
// record of its bits.
#![tactic(auto)]

ghost use Rattle.std.specs.Prelude.{◌≡◌};
ghost use Rattle.console_text.specs.Held.{held};
ghost use Rattle.console_text.specs.Says.{answers, says_of, says_if};
ghost use Rattle.console_sums.specs.Commands.{command_named, fits_of, asked_of, answer_of, fits_count_of, line_of};

pub mod bits;
pub mod build;
mod walk;

use console_text::line::Arguments;
use console_text::output::{Output, Reply};
use console_text::reply::ToReply;
use prefix_summed_elias_fano::access;

// `sums_len` and `sums_access P`.
#[derive(Clone, Copy, Debug, PartialEq, Eq)]
pub enum Command {
    Len,
    Access,
}

impl Command {
    pub fn named(name: &[u8]) -> Option<Command>
        ensures { result ≡ command_named name.now }
    {
        match name {
            b"sums_len" => Some(Command::Len),
            b"sums_access" => Some(Command::Access),
            _ => None,
        }
    }

    // How many numbers it takes.
    fn fits(self, r: Arguments) -> bool
        ensures { result ≡ fits_of self r }
    {
        match self {
            Command::Len => r.n == 0,
            Command::Access => r.n == 1,
        }
    }

    // No `From`: each arm is another call, over the image.
    fn asked(self, r: Arguments, image: &[u64]) -> Reply
        ensures { says_of result ≡ answers (asked_of self r image.now) }
    {
        match self {
            Command::Len => access::len(image).reply(),
            Command::Access => access::access(image, r.a as usize).reply(),
        }
    }
}

// None: the name is none of the two. As the questions' own `answer`: a trait over both enums would be longer than the two.
pub fn answer(name: &[u8], r: Arguments, image: &[u64]) -> Option<Reply>
    ensures { says_if result ≡ answer_of name.now r image.now }
{
    let command = Command::named(name)?;
    if !command.fits(r) {
        return Some(Reply::Bad);
    }
    Some(command.asked(r, image))
}

// One number, a count that fits.
fn fits_count(r: Arguments) -> bool
    ensures { result ≡ fits_count_of r }
{
    r.n == 1 && r.a <= 4096
}

// `sums_walk COUNT` as a whole line, where the words after the name are numbers.
pub fn list(r: Option<Arguments>, image: &[u64], out: &mut Output)
    ensures { held out.new ≡ line_of r image.now (held out.old) }
{
    match r {
        Some(r) if fits_count(r) => walk::answer(image, r.a as usize, out),
        _ => out.answer(Reply::Bad),
    }
    out.line_end();
}
