// The section Bits: a bit vector that is held as lent words and a length. Nothing is checked when it is set.
ghost use Rattle.std.specs.Prelude.{◌≤◌, length};

use crate::index;
use bit_vectors::bit_vector;
use console_text::line;
use console_text::line::Arguments;
use console_text::output::{Output, Reply};
use console_text::reply::ToReply;
use errors::Refusal;

// A question, with the number of numbers that it takes beside it in `ask`.
#[derive(Clone, Copy, Debug, PartialEq, Eq)]
enum Question {
    GetWord64,
    Access,
    Rank1,
    Select1,
    Select0,
    Predecessor1,
    GetBits,
    IndexSelect,
    NumOnes,
}

impl Question {
    fn named(name: &[u8]) -> Option<Question> {
        match name {
            b"get_word64" => Some(Question::GetWord64),
            b"access" => Some(Question::Access),
            b"rank1" => Some(Question::Rank1),
            b"select1" => Some(Question::Select1),
            b"select0" => Some(Question::Select0),
            b"predecessor1" => Some(Question::Predecessor1),
            b"get_bits" => Some(Question::GetBits),
            b"index_select" => Some(Question::IndexSelect),
            b"num_ones" => Some(Question::NumOnes),
            _ => None,
        }
    }
}

// What alters the lent words.
#[derive(Clone, Copy, Debug, PartialEq, Eq)]
enum Change {
    FromBit,
    SetBit,
    PushBit,
    PushBits,
}

impl Change {
    fn named(name: &[u8]) -> Option<Change> {
        match name {
            b"from_bit" => Some(Change::FromBit),
            b"set_bit" => Some(Change::SetBit),
            b"push_bit" => Some(Change::PushBit),
            b"push_bits" => Some(Change::PushBits),
            _ => None,
        }
    }

    // How many numbers it takes, and which of them is a choice.
    fn fits(self, r: Arguments) -> bool {
        match self {
            Change::FromBit => r.n == 2 && r.a < 2,
            Change::SetBit => r.n == 2 && r.b < 2,
            Change::PushBit => r.n == 1 && r.a < 2,
            Change::PushBits => r.n == 2,
        }
    }
}

#[derive(Drop)]
pub struct Bits {
    words: [u64; 4096],
    // How many of the words are lent, and how many bits there are.
    lent: usize,
    pub len: usize,
}

impl Bits {
    pub fn new() -> Bits {
        Bits {
            words: [0; 4096],
            lent: 0,
            len: 0,
        }
    }

    pub fn words(&self) -> &[u64] {
        line::first(&self.words, self.lent)
    }

    // `bits LEN W..`: a length, and no more words than there are. The line and `end` are those that the clause of `store` names.
    pub fn set(&mut self, text: &[u8], end: usize) -> Reply
        requires { end ≤ length text.now }
    {
        match line::numbers(text, end) {
            Some(r) if 1 <= r.n && r.n <= 4097 => {
                // The words after the length.
                if end < text.len() {
                    line::store(text, line::word_end(text, end + 1), &mut self.words);
                }
                self.lent = r.n - 1;
                self.len = r.a as usize;
                Reply::Done
            }
            _ => Reply::Bad,
        }
    }

    // None: the name is none of the questions'.
    pub fn ask(&self, name: &[u8], r: Arguments) -> Option<Reply> {
        let question = Question::named(name)?;
        let words = self.words();
        let len = self.len;
        let a = r.a as usize;
        let b = r.b as usize;
        let reply = match (question, r.n) {
            (Question::GetWord64, 1) => bit_vector::get_word64(words, len, a).reply(),
            (Question::Access, 1) => bit_vector::access(words, len, a).reply(),
            (Question::Rank1, 1) => bit_vector::rank1(words, len, a).reply(),
            (Question::Select1, 1) => bit_vector::select1(words, len, a).reply(),
            (Question::Select0, 1) => bit_vector::select0(words, len, a).reply(),
            (Question::Predecessor1, 1) => bit_vector::predecessor1(words, len, a).reply(),
            (Question::GetBits, 2) => bit_vector::get_bits(words, len, a, b).reply(),
            (Question::IndexSelect, 2) => index::select(words, len, r.a, b),
            (Question::NumOnes, 0) => bit_vector::num_ones(words, len).reply(),
            _ => Reply::Bad,
        };
        Some(reply)
    }

    // None: the name is none of the changes'.
    pub fn alter(&mut self, name: &[u8], r: Arguments) -> Option<Reply> {
        let change = Change::named(name)?;
        if !change.fits(r) {
            return Some(Reply::Bad);
        }
        // `min`: with a ghost field that bounds `lent`, which was tried, no part of `words` could be lent here.
        let lent = self.lent.min(4096);
        let len = self.len;
        let after = altered(change, r, &mut self.words[..lent], len);
        if let Ok(n) = after {
            self.len = n;
        }
        Some(after.map(|_| ()).reply())
    }

    // `dump`
    pub fn dump(&self, out: &mut Output) {
        out.number(self.len as u64);
        out.text(b" :");
        out.list(self.words());
        out.line_end();
    }
}

// How many bits there are from then on.
fn altered(change: Change, r: Arguments, words: &mut [u64], len: usize) -> Result<usize, Refusal> {
    match change {
        Change::FromBit => {
            let n = r.b as usize;
            bit_vector::from_bit(r.a == 1, n, words)?;
            Ok(n)
        }
        Change::SetBit => {
            bit_vector::set_bit(words, len, r.a as usize, r.b == 1)?;
            Ok(len)
        }
        Change::PushBit => bit_vector::push_bit(words, len, r.a == 1),
        Change::PushBits => bit_vector::push_bits(words, len, r.a, r.b as usize),
    }
}
