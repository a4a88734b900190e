// What the console writes: bytes gather in a buffer, which goes out whole when it is full.
ghost use Rattle.std.specs.Prelude.{◌≡◌, ◌+◌, ◌≤◌, take, replicate};
ghost use Rattle.console_text.specs.Gathered.{gathered, emptied, with_byte, with_text, with_room, with_number, with_list, with_numbers, with_refusal, with_says};

use errors::Refusal;

// The answer to a command, but for those that write a list.
#[derive(Clone, Copy, Debug, PartialEq, Eq)]
pub enum Reply {
    Value(u64),
    // A plain none.
    Nothing,
    // Done, with nothing to give.
    Done,
    Refused(Refusal),
    // A command that is out of form, and changes nothing.
    Bad,
}

// `at` is how many bytes have gathered.
#[derive(Drop)]
pub struct Output {
    bytes: [u8; 65536],
    at: usize,
    ghost within: { at ≤ 65536 },
}

impl Output {
    ghost use Rattle.errors.specs.Refusal.{number_of};
    ghost use Rattle.console_text.specs.Says.{says_of};
    ghost use Rattle.console_text.specs.Held.{held};

    pub fn new() -> Output
        ensures { held result ≡ gathered 0 (replicate 65536 0) }
    {
        Output {
            bytes: [0; 65536],
            at: 0,
        }
    }

    // The bytes that have gathered.
    pub fn gathered(&self) -> &[u8]
        ensures { result.now ≡ take (held self.now).at (held self.now).bytes }
    {
        &self.bytes[..self.at]
    }

    // Drops what has gathered.
    pub fn clear(&mut self)
        ensures { held self.new ≡ emptied (held self.old) }
    {
        self.at = 0;
    }

    // Sends what has gathered to standard output.
    pub fn flush(&mut self)
        ensures { held self.new ≡ emptied (held self.old) }
    {
        io::write_all(1, self.gathered());
        self.clear();
    }

    // Sends what has gathered where fewer than n bytes are left.
    fn make_room(&mut self, n: usize)
        requires { n ≤ 65536 }
        ensures value { held self.new ≡ with_room n (held self.old) }
        ensures room { (held self.new).at + n ≤ 65536 }
    {
        if 65536 - self.at < n {
            self.flush();
        }
    }

    pub fn byte(&mut self, b: u8)
        ensures { held self.new ≡ with_byte (held self.old) b }
    {
        self.make_room(1);
        self.bytes[self.at] = b;
        self.at += 1;
    }

    pub fn text(&mut self, s: &[u8])
        ensures { held self.new ≡ with_text (held self.old) s.now }
    {
        for b in s {
            self.byte(*b);
        }
    }

    // A number has 20 digits at most.
    pub fn number(&mut self, x: u64)
        ensures { held self.new ≡ with_number (held self.old) x }
    {
        self.make_room(20);
        if let Some(end) = decimal::write(x, &mut self.bytes, self.at) {
            self.at = end;
        }
    }

    // A number after a space.
    pub fn next_number(&mut self, x: u64)
        ensures { held self.new ≡ with_number (with_byte (held self.old) 32) x }
    {
        self.byte(b' ');
        self.number(x);
    }

    // Each number of a list after a space.
    pub fn list(&mut self, xs: &[u64])
        ensures { held self.new ≡ with_list (held self.old) xs.now }
    {
        for x in xs {
            self.next_number(*x);
        }
    }

    // The numbers of a list with a space between them.
    pub fn numbers(&mut self, xs: &[u64])
        ensures { held self.new ≡ with_numbers (held self.old) xs.now }
    {
        if let [first, rest @ ..] = xs {
            self.number(*first);
            self.list(rest);
        }
    }

    pub fn line_end(&mut self)
        ensures { held self.new ≡ with_byte (held self.old) 10 }
    {
        self.byte(b'\n');
    }

    pub fn refusal(&mut self, r: Refusal)
        ensures { held self.new ≡ with_refusal (held self.old) (number_of r) }
    {
        self.text(b"refused ");
        self.number(u64::from(r));
    }

    pub fn answer(&mut self, r: Reply)
        ensures { held self.new ≡ with_says (held self.old) (says_of r) }
    {
        match r {
            Reply::Value(x) => self.number(x),
            Reply::Nothing => self.text(b"none"),
            Reply::Done => self.text(b"ok"),
            Reply::Refused(e) => self.refusal(e),
            Reply::Bad => self.text(b"bad command"),
        }
    }

    // A whole line.
    pub fn reply_line(&mut self, r: Reply)
        ensures { held self.new ≡ with_byte (with_says (held self.old) (says_of r)) 10 }
    {
        self.answer(r);
        self.line_end();
    }
}
