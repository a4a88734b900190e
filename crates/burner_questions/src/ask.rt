// `ask`: a line as the console has it, answered as the console answers it.
use crate::send;
use console_questions::{Listing, windows};
use console_text::line;
use console_text::line::Arguments;
use console_text::output::{Output, Reply};
use word_files::say::Failure;

// Why a question is not answered.
#[derive(Clone, Copy, Debug, PartialEq, Eq)]
pub enum AskError {
    // The console answers `bad command`.
    OutOfForm,
    // The answer is `refused N`, or it cannot be written.
    Failed(Failure),
}

impl From<Failure> for AskError {
    fn from(f: Failure) -> AskError {
        AskError::Failed(f)
    }
}

// A question that has one answer, of the record or of the prefix sums.
fn replied(name: &[u8], r: Arguments, image: &[u64]) -> Option<Reply> {
    console_questions::answer(name, r, image).or_else(|| console_sums::answer(name, r, image))
}

// The answer's line.
fn gather(text: &[u8], image: &[u64], out: &mut Output) {
    let end = line::word_end(text, 0);
    let name = &text[..end];
    match name {
        b"windows" => out.reply_line(windows::answer(text, end, image)),
        b"walk" => Listing::Walk.answer(line::numbers(text, end), image, out),
        b"read" => Listing::Read.answer(line::numbers(text, end), image, out),
        b"sums_walk" => console_sums::list(line::numbers(text, end), image, out),
        _ => {
            let reply = line::numbers(text, end).and_then(|r| replied(name, r, image));
            out.reply_line(reply.unwrap_or(Reply::Bad));
        }
    }
}

// The answer goes out, but for `bad command`. Its first byte tells which it is, since the clauses of the lists (`line_of`) have the line alone. A list has digits, spaces and `none` only, so a long one, of which a part has gone out,
// is told by it too.
pub fn answer(text: &[u8], image: &[u64], out: &mut Output) -> Result<(), AskError> {
    gather(text, image, out);
    match out.gathered().first() {
        Some(b'b') => {
            out.clear();
            Err(AskError::OutOfForm)
        }
        Some(b'r') => {
            send::page(out)?;
            Err(AskError::Failed(Failure::Refused))
        }
        _ => Ok(send::page(out)?),
    }
}
