// The lines of standard input: each is a time, which is pushed and answered.
ghost use Rattle.std.specs.Prelude.{◌≤◌};

use console_text::output::Output;
use elias_fano::builder::{Builder, push};
use record_file::keep_dropping_error;
use std::io::Read;
use word_files::say;
use word_files::say::Failure;

// The bytes of a line that have gathered. No time is longer than the space.
#[derive(Drop)]
struct Line {
    space: [u8; 64],
    len: usize,
    // Whether there were more bytes than fit; an `Option` of `len` would be a match at each use.
    long: bool,
    ghost within: { len ≤ 64 },
}

impl Line {
    fn new() -> Line {
        Line {
            space: [0; 64],
            len: 0,
            long: false,
        }
    }

    fn push(&mut self, b: u8) {
        if self.len < 64 {
            self.space[self.len] = b;
            self.len += 1;
        } else {
            self.long = true;
        }
    }

    // The time that the whole line spells.
    fn time(&self) -> Option<u64> {
        if self.long {
            return None;
        }
        decimal::parse(&self.space[..self.len]).ok()
    }

    fn clear(&mut self) {
        self.len = 0;
        self.long = false;
    }
}

// A record that is logged to.
#[derive(Drop)]
pub struct Log<'a, 'b> {
    rt: &'a HostRuntime,
    file: &'a [u8],
    record: Builder,
    words: &'b mut [u64],
    // A save comes after so many accepted times, and after `left` more of them.
    every: u64,
    left: u64,
    line: Line,
    out: &'b mut Output,
}

impl<'a, 'b> Log<'a, 'b> {
    pub fn begin(
        rt: &'a HostRuntime,
        file: &'a [u8],
        record: Builder,
        every: u64,
        words: &'b mut [u64],
        out: &'b mut Output,
    ) -> Log<'a, 'b> {
        Log {
            rt,
            file,
            record,
            words,
            every,
            left: every,
            line: Line::new(),
            out,
        }
    }

    fn answer(&mut self, text: &[u8]) {
        self.out.text(text);
        self.out.line_end();
    }

    // Saves the record, and counts anew. What has gathered goes out before a failure is told.
    fn save(&mut self) -> Result<(), Failure> {
        if keep_dropping_error(self.rt, self.file, self.record, &*self.words).is_err() {
            self.out.flush();
            return Err(say::unusable(self.file, b" cannot be written"));
        }
        self.left = self.every;
        Ok(())
    }

    // The time with which the record is to be saved is answered after the save, and at once.
    fn accept(&mut self) -> Result<(), Failure> {
        if self.left > 1 {
            self.left -= 1;
            self.answer(b"ok");
            return Ok(());
        }
        self.save()?;
        self.answer(b"ok");
        self.out.flush();
        Ok(())
    }

    fn push(&mut self, time: u64) -> Result<(), Failure> {
        match push(self.record, time, &mut *self.words) {
            Ok(b) => {
                self.record = b;
                self.accept()
            }
            Err(e) => {
                self.out.refusal(e);
                self.out.line_end();
                Ok(())
            }
        }
    }

    // Answers the line, and starts the next.
    fn end_line(&mut self) -> Result<(), Failure> {
        let time = self.line.time();
        self.line.clear();
        match time {
            Some(t) => self.push(t),
            None => {
                self.answer(b"bad line");
                Ok(())
            }
        }
    }

    // Each byte joins the line, or ends it.
    fn take(&mut self, input: &[u8]) -> Result<(), Failure> {
        for b in input {
            if *b == b'\n' {
                self.end_line()?;
            } else {
                self.line.push(*b);
            }
        }
        Ok(())
    }

    // At the end of the input: the last line may lack its line feed, and what is not saved is saved.
    fn end(&mut self) -> Result<(), Failure> {
        if self.line.len > 0 {
            self.end_line()?;
        }
        self.out.flush();
        if self.left != self.every {
            self.save()?;
        }
        Ok(())
    }

    // Reads once, and answers the lines that are whole; whether the input goes on. An input that fails ends as one that is at its end.
    fn turn(&mut self) -> Result<bool, Failure> {
        let mut input = io::large_buffer();
        match self.rt.stdin().read(&mut input) {
            Ok(0) => {
                self.end()?;
                Ok(false)
            }
            Ok(n) => {
                let taken = self.take(&input[..n]);
                self.out.flush();
                taken?;
                Ok(true)
            }
            Err(_) => {
                let _ = self.end();
                say::sentence(b"standard input cannot be read");
                Err(Failure::Unusable)
            }
        }
    }

    // Answers every line.
    pub fn run(mut self) -> Result<(), Failure> {
        for _ in 0..u64::MAX {
            if !self.turn()? {
                return Ok(());
            }
        }
        Ok(())
    }
}
