// `winters`: a line for each span between two seconds, under a heading. The columns are `from to starts mean_gap shortest_gap change bar`.
ghost use Rattle.std.specs.Prelude.{◌≤◌, ◌<◌};

use crate::{ImageFile, cells, figures, send};
use console_text::output::Output;
use winters::compare;
use word_files::say::Failure;

// What is told of a span. No record has more starts.
#[derive(Clone, Copy)]
struct Span {
    from: u64,
    to: u64,
    starts: u64,
    first: u64,
    last: u64,
    gap: u64,
    ghost few: { starts ≤ 16777216 },
}

fn word(words: &[u64], i: usize) -> u64 {
    words.get(i).copied().unwrap_or(0)
}

// How many starts the span i has, of four words a span.
fn starts_of(words: &[u64], i: usize) -> u64
    requires { i < 1000 }
    ensures { result ≤ 16777216 }
{
    word(words, 4 * i).min(figures::MOST)
}

// The most starts that one of n spans has.
fn most_of(words: &[u64], n: usize) -> u64
    requires { n < 1000 }
{
    let mut most: u64 = 0;
    for i in 0..n {
        most = most.max(starts_of(words, i));
    }
    most
}

// A number after a space, or `-` where there is none.
fn cell(out: &mut Output, width: usize, told: Option<u64>) {
    out.byte(b' ');
    match told {
        Some(x) => cells::number(out, width, x),
        None => cells::text(out, width, b"-"),
    }
}

fn heading(out: &mut Output) {
    cells::text(out, 12, b"from");
    cells::text(out, 13, b"to");
    cells::text(out, 10, b"starts");
    cells::text(out, 11, b"mean_gap");
    cells::text(out, 14, b"shortest_gap");
    cells::text(out, 9, b"change");
    out.text(b" bar\n");
}

impl Span {
    // The span i, of four words a span.
    fn at(seconds: &[u64], words: &[u64], i: usize) -> Span
        requires { i < 1000 }
    {
        Span {
            from: word(seconds, i),
            to: word(seconds, i + 1),
            starts: starts_of(words, i),
            first: word(words, 4 * i + 1),
            last: word(words, 4 * i + 2),
            gap: word(words, 4 * i + 3),
        }
    }

    // The change of its starts against a base, with its sign: 6 digits and more take more than the width of 8.
    fn change(self, out: &mut Output, base: Option<Span>) {
        out.byte(b' ');
        match base {
            Some(b) if 0 < b.starts => {
                let x = figures::change(self.starts, b.starts);
                let sign = if self.starts < b.starts && 0 < x {
                    b'-'
                } else {
                    b'+'
                };
                cells::per_cent(out, 8, sign, x);
            }
            _ => cells::text(out, 8, b"-"),
        }
    }

    fn bar(self, out: &mut Output, most: u64) {
        let n = figures::bar(self.starts, most);
        if n == 0 {
            return out.text(b" -");
        }
        out.byte(b' ');
        cells::repeated(out, b'#', n as usize);
    }

    // Its line, against a base.
    fn row(self, out: &mut Output, base: Option<Span>, most: u64) {
        let gaps = 1 < self.starts;
        let mean = figures::mean_gap(self.starts, self.first, self.last);
        cells::number(out, 12, self.from);
        cell(out, 12, Some(self.to));
        cell(out, 9, Some(self.starts));
        cell(out, 10, gaps.then_some(mean));
        cell(out, 13, gaps.then_some(self.gap));
        self.change(out, base);
        self.bar(out, most);
        out.line_end();
    }
}

// The lines of n spans, each after the first against it, until a write fails.
fn rows(seconds: &[u64], words: &[u64], n: usize, out: &mut Output) -> Result<(), Failure>
    requires { n < 1000 }
{
    let most = most_of(words, n);
    let first = Span::at(seconds, words, 0);
    heading(out);
    for i in 0..n {
        let base = if i == 0 { None } else { Some(first) };
        Span::at(seconds, words, i).row(out, base, most);
        send::full_page(out)?;
    }
    send::page(out)
}

// The spans between 1,000 seconds at most.
pub fn answer(file: ImageFile, seconds: &[u64], out: &mut Output) -> Result<(), Failure> {
    let mut words = [0u64; 4000]; // no heap
    match compare(file.words, seconds, &mut words) {
        Ok(n) => rows(seconds, &words, n.min(999), out),
        Err(_) => Err(file.refused()),
    }
}
