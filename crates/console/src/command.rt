// One line of input: finds its section and answers it.
use crate::bits::Bits;
use crate::{index, walk, words};
use console_questions::{Listing, windows};
use console_record::{Record, show};
use console_sarray::Sparse;
use console_text::line;
use console_text::line::Arguments;
use console_text::output::{Output, Reply};

// What the console holds.
#[derive(Drop)]
pub struct Console {
    bits: Bits,
    buffer: [u64; 65536],
    record: Record,
    sparse: Sparse,
    pub out: Output,
}

// A command that takes a list, or writes one. The others take a few numbers, and have one answer.
#[derive(Clone, Copy, Debug, PartialEq, Eq)]
enum Command {
    Bits,
    Unary,
    Index,
    Dump,
    Words,
    Builder,
    Walk,
    Read,
    SumsWalk,
    Sums,
    Windows,
}

impl Command {
    fn named(name: &[u8]) -> Option<Command> {
        match name {
            b"bits" => Some(Command::Bits),
            b"unary" => Some(Command::Unary),
            b"index" => Some(Command::Index),
            b"dump" => Some(Command::Dump),
            b"words" => Some(Command::Words),
            b"builder" => Some(Command::Builder),
            b"walk" => Some(Command::Walk),
            b"read" => Some(Command::Read),
            b"sums_walk" => Some(Command::SumsWalk),
            b"sums" => Some(Command::Sums),
            b"windows" => Some(Command::Windows),
            _ => None,
        }
    }
}

impl Console {
    pub fn new() -> Console {
        Console {
            bits: Bits::new(),
            buffer: [0; 65536],
            record: console_record::nothing(),
            sparse: console_sarray::nothing(),
            out: Output::new(),
        }
    }

    // Of a line that is no command, as one of more than 65,536 bytes.
    pub fn bad(&mut self) {
        self.out.reply_line(Reply::Bad);
    }

    // The image of what is held of the record.
    fn image(&self) -> &[u64] {
        line::first(&self.buffer, self.record.image)
    }

    // A question over the image: of the record, of the prefix sums, or of the sparse vector.
    fn asked(&self, name: &[u8], r: Arguments) -> Option<Reply> {
        let image = self.image();
        console_questions::answer(name, r, image)
            .or_else(|| console_sums::answer(name, r, image))
            .or_else(|| console_sarray::answer(name, r, image, self.sparse))
    }

    // What alters what is held: of the sparse vector, or of the record, maybe from the console's bits.
    fn altered(&mut self, name: &[u8], r: Arguments) -> Option<Reply> {
        let words = self.bits.words();
        let len = self.bits.len;
        let buffer = &mut self.buffer;
        let record = &mut self.record;
        console_sarray::alter(name, r, words, len, buffer, record, &mut self.sparse)
            .or_else(|| console_sums::bits::answer(name, r, words, len, buffer, record))
            .or_else(|| console_record::answer(name, r, buffer, record))
    }

    // A command that takes a few numbers: the sections are tried in turn.
    fn numbered(&mut self, name: &[u8], r: Arguments) -> Option<Reply> {
        words::answer(name, r)
            .or_else(|| self.bits.ask(name, r))
            .or_else(|| self.bits.alter(name, r))
            .or_else(|| self.asked(name, r))
            .or_else(|| self.altered(name, r))
    }

    // Answers a line, but for an empty one and one that begins with '#'. `bits`, `unary`, `sums` and `windows` read their words by themselves.
    pub fn answer(&mut self, text: &[u8]) {
        if text.is_empty() || text[0] == b'#' {
            return;
        }
        let end = line::word_end(text, 0);
        let name = &text[..end];
        let bare = end == text.len(); // nothing follows the name
        match Command::named(name) {
            Some(Command::Bits) => {
                let reply = self.bits.set(text, end);
                self.out.reply_line(reply);
            }
            Some(Command::Unary) => {
                walk::answer(text, end, self.bits.words(), self.bits.len, &mut self.out);
            }
            Some(Command::Index) => match line::numbers(text, end) {
                Some(r) if r.n == 1 && r.a < 2 => {
                    index::answer(r.a == 1, self.bits.words(), self.bits.len, &mut self.out);
                }
                _ => self.bad(),
            },
            Some(Command::Dump) if bare => self.bits.dump(&mut self.out),
            Some(Command::Words) if bare => show::words(&self.buffer, self.record, &mut self.out),
            Some(Command::Builder) if bare => show::builder(self.record, &mut self.out),
            Some(Command::Dump | Command::Words | Command::Builder) => self.bad(),
            Some(Command::Walk) => Listing::Walk.answer(
                line::numbers(text, end),
                line::first(&self.buffer, self.record.image),
                &mut self.out,
            ),
            Some(Command::Read) => Listing::Read.answer(
                line::numbers(text, end),
                line::first(&self.buffer, self.record.image),
                &mut self.out,
            ),
            Some(Command::SumsWalk) => console_sums::list(
                line::numbers(text, end),
                line::first(&self.buffer, self.record.image),
                &mut self.out,
            ),
            Some(Command::Sums) => {
                let reply = console_sums::build::answer(
                    text,
                    end,
                    &mut self.buffer,
                    &mut self.record,
                );
                self.out.reply_line(reply);
            }
            Some(Command::Windows) => {
                let reply = windows::answer(text, end, self.image());
                self.out.reply_line(reply);
            }
            None => {
                let r = line::numbers(text, end);
                let reply = r.and_then(|r| self.numbered(name, r)).unwrap_or(Reply::Bad);
                self.out.reply_line(reply);
            }
        }
    }
}
