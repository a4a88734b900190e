// The console's sparse vector: its length and its choice are held here, and its image is the console's.
#![tactic(auto)]

ghost use Rattle.std.specs.Prelude.{◌≡◌, false, List, ℕ};
ghost use Rattle.sarray.specs.Ask.{sparse_query};
ghost use Rattle.sarray.specs.Build.{sparse_from_bits};
ghost use Rattle.console_text.specs.Says.{answers, says_of, says_if};
ghost use Rattle.console_record.specs.declared.Record.{Record};
ghost use Rattle.console_sums.specs.Commands.{of_whole};
ghost use Rattle.console_sarray.specs.Commands.{query_named, question_of, answer_of, sparse as sparse_with, sparse_turn, fits_set_of, set_of, built_of, command_named, alter_of};

use console_record::lent::{Lent, within};
use console_record::{Record, alter};
use console_sums::bits::{Bits, fits_choice};
use console_text::line::{Arguments, same};
use console_text::output::Reply;
use console_text::reply::ToReply;
use sarray::build::from_bits;
use sarray::queries;

// What is held besides the image. (The choice is a flag, as `sparse_query` takes it.)
#[derive(Clone, Copy, Debug, PartialEq, Eq)]
pub struct Sparse {
    pub len: usize,
    pub rank: bool,
}

// Before the first `sarray`.
pub fn nothing() -> Sparse
    ensures { result ≡ sparse_with 0 false }
{
    Sparse {
        len: 0,
        rank: false,
    }
}

// A question, of one number.
#[derive(Clone, Copy, Debug, PartialEq, Eq)]
pub enum Query {
    Access,
    Rank1,
    Select1,
    Predecessor1,
    Successor1,
}

impl Query {
    // One test after another: a match on byte strings was tried, and four arms and five default arms of it did not prove.
    pub fn named(name: &[u8]) -> Option<Query>
        ensures { result ≡ query_named name.now }
    {
        if same(name, b"sarray_access") {
            return Some(Query::Access);
        }
        if same(name, b"sarray_rank1") {
            return Some(Query::Rank1);
        }
        if same(name, b"sarray_select1") {
            return Some(Query::Select1);
        }
        if same(name, b"sarray_predecessor1") {
            return Some(Query::Predecessor1);
        }
        if same(name, b"sarray_successor1") {
            return Some(Query::Successor1);
        }
        None
    }

    // No `From`: each arm is another call, over the image.
    fn asked(self, pos: usize, image: &[u64], v: Sparse) -> Reply
        ensures { says_of result ≡ answers (sparse_query v.len v.rank image.now (question_of self pos)) }
    {
        let len = v.len;
        let rank = v.rank;
        match self {
            Query::Access => queries::access(image, len, rank, pos).reply(),
            Query::Rank1 => queries::rank1(image, len, rank, pos).reply(),
            Query::Select1 => queries::select1(image, len, rank, pos).reply(),
            Query::Predecessor1 => queries::predecessor1(image, len, rank, pos).reply(),
            Query::Successor1 => queries::successor1(image, len, rank, pos).reply(),
        }
    }
}

// None: the name is none of the questions'.
pub fn answer(name: &[u8], r: Arguments, image: &[u64], v: Sparse) -> Option<Reply>
    ensures { says_if result ≡ answer_of name.now r image.now v }
{
    let query = Query::named(name)?;
    if r.n != 1 {
        return Some(Reply::Bad);
    }
    Some(query.asked(r.a as usize, image, v))
}

// Two numbers, the second a choice.
fn fits_set(r: Arguments) -> bool
    ensures { result ≡ fits_set_of r }
{
    r.n == 2 && r.b < 2
}

// `sarray LEN C`
fn set(r: Arguments, v: &mut Sparse) -> Reply
    ensures { (s : Record) (w : List ℕ) → sparse_turn (says_of result) s v.new w ≡ set_of r s v.old w }
{
    if !fits_set(r) {
        return Reply::Bad;
    }
    *v = Sparse {
        len: r.a as usize,
        rank: r.b == 1,
    };
    Reply::Done
}

// The vector of these bits.
#[derive(Clone, Copy)]
struct SparseBits<'a> {
    bits: Bits<'a>,
}

impl<'a> Lent for SparseBits<'a> {
    ghost leaves = { λ b s w. of_whole s (sparse_from_bits b.bits.words.now b.bits.len b.bits.rank w) };

    fn run(self, words: &mut [u64], s: &mut Record) -> Reply {
        let b = self.bits;
        alter::built(from_bits(b.words, b.len, b.rank, &mut *words), s)
    }
}

// `sarray_from_bits C`: the vector of an accepted call is held from then on.
fn built(
    r: Arguments,
    words: &[u64],
    len: usize,
    buffer: &mut [u64],
    s: &mut Record,
    v: &mut Sparse,
) -> Reply
    ensures { sparse_turn (says_of result) s.new v.new buffer.new ≡ built_of r words.now len s.old v.old buffer.old }
{
    if !fits_choice(r) {
        return Reply::Bad;
    }
    let rank = r.a == 1;
    let bits = Bits { words, len, rank };
    let reply = within(SparseBits { bits }, buffer, s);
    if let Reply::Value(_) = reply {
        *v = Sparse { len, rank };
    }
    reply
}

// What sets the vector, or writes it.
#[derive(Clone, Copy, Debug, PartialEq, Eq)]
pub enum Command {
    Set,
    FromBits,
}

impl Command {
    // One test after another: a match on byte strings was tried, and the arm of the long name and a default arm of it did not prove.
    pub fn named(name: &[u8]) -> Option<Command>
        ensures { result ≡ command_named name.now }
    {
        if same(name, b"sarray") {
            return Some(Command::Set);
        }
        if same(name, b"sarray_from_bits") {
            return Some(Command::FromBits);
        }
        None
    }
}

// None: the name is none of the two.
pub fn alter(
    name: &[u8],
    r: Arguments,
    words: &[u64],
    len: usize,
    buffer: &mut [u64],
    s: &mut Record,
    v: &mut Sparse,
) -> Option<Reply>
    ensures { sparse_turn (says_if result) s.new v.new buffer.new ≡ alter_of name.now r words.now len s.old v.old buffer.old }
{
    match Command::named(name)? {
        Command::Set => Some(set(r, v)),
        Command::FromBits => Some(built(r, words, len, buffer, s, v)),
    }
}
