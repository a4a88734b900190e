// The commands over an image, which is loaded from its file first: `check`, `list`, `ask` and `winters`.
ghost use Rattle.std.specs.Prelude.{◌≤◌};

use crate::arguments;
use crate::usage::Command;
use burner_questions::ask::{AskError, answer as answer_line};
use burner_questions::{ImageFile, table};
use console_text::output::Output;
use word_files::say::Failure;
use word_files::{LoadError, load, say};

// The seconds from the argument 3 on, 1000 at most.
fn winters(rt: &HostRuntime, file: ImageFile, out: &mut Output) -> Result<(), Failure> {
    let mut seconds = [0u64; 1000];
    let n = arguments::count(rt).saturating_sub(3).min(1000);
    for (i, x) in seconds[..n].iter_mut().enumerate() {
        *x = arguments::number(rt, i + 3).unwrap_or(0);
    }
    table::answer(file, &seconds[..n], out)
}

// Words with a space between them.
#[derive(Drop)]
struct Line {
    space: [u8; 65536],
    len: usize,
    ghost within: { len ≤ 65536 },
}

impl Line {
    // None: there is no room.
    fn join(&mut self, part: &[u8]) -> Option<()> {
        if 65536 - self.len < part.len() {
            return None;
        }
        let end = self.len + part.len();
        self.space[self.len..end].copy_from_slice(part);
        self.len = end;
        Some(())
    }

    // The argument i joins the line.
    fn add(&mut self, rt: &HostRuntime, i: usize) -> Option<()> {
        let mut part = io::buffer();
        self.join(arguments::text(rt, i, &mut part)?)
    }

    // The arguments from 3 on.
    fn gather(&mut self, rt: &HostRuntime) -> Option<()> {
        self.add(rt, 3)?;
        for i in 4..arguments::count(rt) {
            self.join(b" ")?;
            self.add(rt, i)?;
        }
        Some(())
    }
}

fn ask(rt: &HostRuntime, file: ImageFile, out: &mut Output) -> Result<(), Failure> {
    let mut line = Line {
        space: io::large_buffer(),
        len: 0,
    };
    if line.gather(rt).is_none() {
        return Err(Command::Ask.too_long(out, b"the question"));
    }
    match answer_line(&line.space[..line.len], file.words, out) {
        Ok(()) => Ok(()),
        Err(AskError::Failed(f)) => Err(f),
        Err(AskError::OutOfForm) => Err(Command::Ask.wrong(
            out,
            b"the console",
            b" has no such question with such numbers; ",
        )),
    }
}

fn list(rt: &HostRuntime, file: ImageFile, out: &mut Output) -> Result<(), Failure> {
    let from = arguments::number(rt, 3).unwrap_or(0);
    let count = arguments::number(rt, 4).unwrap_or(u64::MAX);
    burner_questions::list::answer(file, from, count, out)
}

// A file that does not give its words: no `From`, since the sentence has the path.
fn not_loaded(path: &[u8], e: LoadError) -> Failure {
    match e {
        LoadError::Missing => say::unusable(path, b" is not there"),
        LoadError::Unreadable => say::unusable(path, b" cannot be read"),
        LoadError::Cut => say::unusable(
            path,
            b" is cut short: its length is no multiple of 8 bytes",
        ),
        LoadError::TooLong => say::refused(path, b" has more than 524288 words"),
    }
}

// A command over the image that the argument 2 names: one of four, so the last arm is `winters`, and one for the others would be dead.
pub fn answer(
    rt: &HostRuntime,
    command: Command,
    words: &mut [u64; 524288],
    out: &mut Output,
) -> Result<(), Failure> {
    let mut space = io::buffer();
    let Some(path) = arguments::text(rt, 2, &mut space) else {
        return Err(command.too_long(out, b"IMAGE"));
    };
    let n = load(rt, path, words).map_err(|e| not_loaded(path, e))?;
    let file = ImageFile {
        path,
        words: &words[..n],
    };
    match command {
        Command::Check => file.check(),
        Command::List => list(rt, file, out),
        Command::Ask => ask(rt, file, out),
        _ => winters(rt, file, out),
    }
}
