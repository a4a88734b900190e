// The console: reads standard input to its end, one command a line, and writes one line for each.
#![tactic(auto)]

ghost use Rattle.std.specs.Prelude.{◌≤◌, length};

mod bits;
mod command;
mod index;
mod walk;
mod words;

use command::Console;
use console_text::line;
use std::io::Read;

// A line as it gathers: how many bytes there are, and whether there were more than fit, a flag: as an `Option` of the count it would be a match at each use.
#[derive(Drop)]
struct Line {
    text: [u8; 65536],
    count: usize,
    long: bool,
    ghost within: { count ≤ 65536 },
}

impl Line {
    fn new() -> Line {
        Line {
            text: [0; 65536],
            count: 0,
            long: false,
        }
    }

    // The part joins the line, as far as there is room.
    fn gather(&mut self, part: &[u8]) {
        let from = self.count;
        let n = part.len().min(65536 - from);
        self.text[from..from + n].copy_from_slice(&part[..n]);
        self.count = from + n;
        if n < part.len() {
            self.long = true;
        }
    }

    // Answers the line, and starts the next.
    fn answer(&mut self, console: &mut Console) {
        if self.long {
            console.bad();
        } else {
            console.answer(&self.text[..self.count]);
        }
        self.count = 0;
        self.long = false;
    }

    // Answers the lines that are whole. (By `while`: a turn goes on after the line feed that it has found.)
    fn eat(&mut self, input: &[u8], console: &mut Console) {
        let mut at: usize = 0;
        while at < input.len() {
            let end = line::find(input, at, b'\n');
            self.gather(&input[at..end]);
            if end < input.len() {
                self.answer(console);
            }
            at = end + 1;
        }
    }
}

// How many bytes standard input has given, or 0 at its end. An input that fails is at its end. (0 and no Option: std's `read` gives it so.)
fn read_once(rt: &HostRuntime, input: &mut [u8]) -> usize
    ensures { result ≤ length input.new }
{
    rt.stdin().read(input).unwrap_or(0)
}

// Reads once, and says whether the input goes on. At its end the last line may lack its line feed.
fn turn(rt: &HostRuntime, line: &mut Line, console: &mut Console) -> bool {
    let mut input = io::large_buffer();
    let got = read_once(rt, &mut input);
    if got == 0 {
        line.answer(console);
    } else {
        line.eat(&input[..got], console);
    }
    console.out.flush();
    got > 0
}

fn main(rt: HostRuntime) {
    let mut line = Line::new();
    let mut console = Console::new();
    for _ in 0..u64::MAX {
        if !turn(&rt, &mut line, &mut console) {
            break;
        }
    }
}
