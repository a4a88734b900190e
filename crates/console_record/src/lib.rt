// The console's section Record, but for the questions: a lent buffer, a builder, and how many of the buffer's first words are the image.
#![tactic(auto)]

ghost use Rattle.std.specs.Prelude.{◌≡◌};
ghost use Rattle.console_record.specs.Section.{turn, lending, command_named, fits_of, done_of, answer_of};
ghost use Rattle.console_text.specs.Says.{says_of, says_if};

pub mod alter;
mod hold;
pub mod lent;
pub mod show;

use alter::{Change, Changed};
use console_text::line::Arguments;
use console_text::output::Reply;
use elias_fano::builder::Builder;
use lent::within;

// What is held besides the buffer's words: how many of them are lent, how many of these are the image, and the builder.
#[derive(Clone, Copy)]
pub struct Record {
    pub lent: usize,
    pub image: usize,
    pub builder: Builder,
}

// Before the first `buffer`.
pub fn nothing() -> Record
    ensures { result ≡ lending 0 }
{
    hold::lending(0)
}

// A command that takes a few numbers and has one answer.
#[derive(Clone, Copy, Debug, PartialEq, Eq)]
pub enum Command {
    Forge,
    Image,
    Buffer,
    // One that is done with the lent words.
    Within(Change),
}

impl Command {
    pub fn named(name: &[u8]) -> Option<Command>
        ensures { result ≡ command_named name.now }
    {
        match name {
            b"forge" => Some(Command::Forge),
            b"image" => Some(Command::Image),
            b"buffer" => Some(Command::Buffer),
            _ => Change::named(name).map(Command::Within),
        }
    }

    // How many numbers it takes, and which of them is a choice.
    fn fits(self, r: Arguments) -> bool
        ensures { result ≡ fits_of self r }
    {
        match self {
            Command::Forge => r.n == 4,
            Command::Image | Command::Within(Change::Reading) => r.n == 1,
            Command::Within(Change::Finish) => r.n == 1 && r.a < 2,
            Command::Within(Change::Resume) => r.n == 0,
            _ => r.n == 2,
        }
    }

    // What is held is set or written into; no `From`, since each arm is another call.
    fn done(self, r: Arguments, buffer: &mut [u64], s: &mut Record) -> Reply
        ensures { turn (says_of result) s.new buffer.new ≡ done_of self r s.old buffer.old }
    {
        match self {
            Command::Forge => hold::forge(r, s),
            Command::Image => hold::image(r.a as usize, s),
            Command::Buffer => hold::lend(buffer, r.a as usize, r.b, s),
            Command::Within(change) => within(Changed { change, r }, buffer, s),
        }
    }
}

// None: the name is none of the section's.
pub fn answer(name: &[u8], r: Arguments, buffer: &mut [u64], s: &mut Record) -> Option<Reply>
    ensures { turn (says_if result) s.new buffer.new ≡ answer_of name.now r s.old buffer.old }
{
    let command = Command::named(name)?;
    if !command.fits(r) {
        return Some(Reply::Bad);
    }
    Some(command.done(r, buffer, s))
}
