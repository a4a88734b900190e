// The console's questions over the image of a record, and how many words are enough for one.
#![tactic(auto)]

ghost use Rattle.std.specs.Prelude.{◌≡◌, ◌≤◌};
ghost use Rattle.console_text.specs.Held.{held};
ghost use Rattle.console_text.specs.Says.{answers, says_of, says_if};
ghost use Rattle.console_questions.specs.Questions.{command_named, fits_of, asked_of, answer_of, fits_list_of, list_of, line_of};

pub mod ask;
mod read;
pub mod steps;
pub mod walk;
pub mod windows;

use console_text::line::{Arguments, same};
use console_text::output::{Output, Reply};
use console_text::reply::ToReply;
use elias_fano::{builder, image};
use elias_fano_queries::{delta, header, neighbours, rank};
use elias_fano_walk::search;

// A question that has one answer. `limit` needs no image.
#[derive(Clone, Copy, Debug, PartialEq, Eq)]
pub enum Command {
    Open,
    Len,
    Universe,
    HasRank,
    Select,
    Delta,
    Rank,
    Predecessor,
    Successor,
    Search,
    SearchRange,
    Limit,
}

impl Command {
    // One test after another: a match on byte strings was tried, and its default arm for other names of twelve bytes did not prove.
    pub fn named(name: &[u8]) -> Option<Command>
        ensures { result ≡ command_named name.now }
    {
        if same(name, b"open") {
            return Some(Command::Open);
        }
        if same(name, b"len") {
            return Some(Command::Len);
        }
        if same(name, b"universe") {
            return Some(Command::Universe);
        }
        if same(name, b"has_rank") {
            return Some(Command::HasRank);
        }
        if same(name, b"select") {
            return Some(Command::Select);
        }
        if same(name, b"delta") {
            return Some(Command::Delta);
        }
        if same(name, b"rank") {
            return Some(Command::Rank);
        }
        if same(name, b"predecessor") {
            return Some(Command::Predecessor);
        }
        if same(name, b"successor") {
            return Some(Command::Successor);
        }
        if same(name, b"search") {
            return Some(Command::Search);
        }
        if same(name, b"search_range") {
            return Some(Command::SearchRange);
        }
        if same(name, b"limit") {
            return Some(Command::Limit);
        }
        None
    }

    // How many numbers it takes, and which of them is a choice.
    fn fits(self, r: Arguments) -> bool
        ensures { result ≡ fits_of self r }
    {
        match self {
            Command::Open | Command::Len | Command::Universe | Command::HasRank => r.n == 0,
            Command::SearchRange => r.n == 3,
            Command::Limit => r.n == 3 && r.c < 2,
            _ => r.n == 1,
        }
    }

    // No `From`, here and in `shown`: each arm is another call, over the image.
    fn asked(self, r: Arguments, image: &[u64]) -> Reply
        ensures { says_of result ≡ answers (asked_of self r image.now) }
    {
        let k = r.a as usize;
        match self {
            Command::Open => ask::opened(image::open(image)),
            Command::Len => header::len(image).reply(),
            Command::Universe => header::universe(image).reply(),
            Command::HasRank => header::has_rank(image).reply(),
            Command::Select => image::select(image, k).reply(),
            Command::Delta => delta::delta(image, k).reply(),
            Command::Rank => rank::rank(image, r.a).reply(),
            Command::Predecessor => neighbours::predecessor(image, r.a).reply(),
            Command::Successor => neighbours::successor(image, r.a).reply(),
            Command::Search => search::binsearch(image, r.a).reply(),
            Command::SearchRange => search::binsearch_range(image, k, r.b as usize, r.c).reply(),
            Command::Limit => builder::limit(r.a, r.b, r.c == 1).reply(),
        }
    }
}

// None: the name is none of the questions'.
pub fn answer(name: &[u8], r: Arguments, image: &[u64]) -> Option<Reply>
    ensures { says_if result ≡ answer_of name.now r image.now }
{
    let command = Command::named(name)?;
    if !command.fits(r) {
        return Some(Reply::Bad);
    }
    Some(command.asked(r, image))
}

// What writes a list: `walk K COUNT` and `read K COUNT`.
#[derive(Clone, Copy, Debug, PartialEq, Eq)]
pub enum Listing {
    Walk,
    Read,
}

// Two numbers, of which the second is a count that fits.
fn fits_list(r: Arguments) -> bool
    ensures { result ≡ fits_list_of r }
{
    r.n == 2 && r.b <= 4096
}

impl Listing {
    // A whole line, where the words after the name are numbers.
    pub fn answer(self, r: Option<Arguments>, image: &[u64], out: &mut Output)
        ensures { held out.new ≡ line_of self r image.now (held out.old) }
    {
        match r {
            Some(r) if fits_list(r) => self.shown(image, r.a as usize, r.b as usize, out),
            _ => out.answer(Reply::Bad),
        }
        out.line_end();
    }

    fn shown(self, image: &[u64], k: usize, count: usize, out: &mut Output)
        requires { count ≤ 4096 }
        ensures { held out.new ≡ list_of self image.now k count (held out.old) }
    {
        match self {
            Listing::Walk => walk::answer(image, k, count, out),
            Listing::Read => read::answer(image, k, count, out),
        }
    }
}
