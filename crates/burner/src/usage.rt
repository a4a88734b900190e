// What the program says of its commands.
ghost use Rattle.std.specs.Prelude.{◌≡◌, IfErr};
ghost use Rattle.console_text.specs.Line.{place_among, words_in};
ghost use Rattle.burner.specs.Usage.{names, command_at, first_number_of, fits_of};

use crate::arguments;
use burner_questions::send;
use console_text::line;
use console_text::output::Output;
use record_file::sentences;
use word_files::say::Failure;

#[derive(Clone, Copy, Debug, PartialEq, Eq)]
pub enum Command {
    Log,
    Finish,
    Check,
    List,
    Ask,
    Winters,
    Limit,
}

const COMMANDS: [Command; 7] = [
    Command::Log,
    Command::Finish,
    Command::Check,
    Command::List,
    Command::Ask,
    Command::Winters,
    Command::Limit,
];

// Their names, in the same order.
const NAMES: [u8; 39] = *b"log finish check list ask winters limit";

impl Command {
    pub fn named(name: &[u8]) -> Option<Command>
        ensures { result ≡ command_at (place_among (words_in names) name.now) }
    {
        COMMANDS.get(line::place_in(&NAMES, name)).copied()
    }

    // Which argument is the first of its numbers; all after it are numbers too. No `From`: the specs name `first_number_of`.
    pub fn first_number(self) -> Option<usize>
        ensures { result ≡ first_number_of self }
    {
        match self {
            Command::Log | Command::List | Command::Winters => Some(3),
            Command::Finish => Some(4),
            Command::Limit => Some(2),
            Command::Check | Command::Ask => None,
        }
    }

    // How many arguments it takes, the program's and its own name among them.
    pub fn fits(self, n: usize) -> bool
        ensures { result ≡ fits_of self n }
    {
        match self {
            Command::Log => n == 5 || n == 6,
            Command::Finish | Command::Limit => n == 5,
            Command::Check => n == 3,
            Command::List => 3 <= n && n <= 5,
            Command::Ask => 4 <= n,
            Command::Winters => 5 <= n && n <= 1003,
        }
    }

    // Its name, what it takes, and what it does.
    fn help(self) -> &'static [u8] {
        match self {
            Command::Log => {
                b"log FILE UNIVERSE COUNT [EVERY]: keeps a record, a time a line, saved every EVERY times"
            }
            Command::Finish => {
                b"finish FILE IMAGE CHOICE: makes the image, with the rank index (1) or without (0)"
            }
            Command::Check => b"check IMAGE: whether the file is an image",
            Command::List => b"list IMAGE [FROM [COUNT]]: its times, one a line",
            Command::Ask => b"ask IMAGE QUESTION NUMBER..: one of the console's questions",
            Command::Winters => {
                b"winters IMAGE SECOND SECOND..: the spans between up to 1000 seconds, side by side"
            }
            Command::Limit => {
                b"limit UNIVERSE COUNT CHOICE: how many words are enough for a record"
            }
        }
    }

    // `COMMAND takes FORM`
    fn form(self, out: &mut Output) {
        let help = self.help();
        let end = line::word_end(help, 0);
        let colon = line::find(help, end, b':');
        out.text(&help[..end]);
        out.text(b" takes");
        out.text(&help[end..colon]);
    }

    // Says `burner: WHAT HOW; COMMAND takes FORM`, where `how` has the semicolon.
    pub fn wrong(self, out: &mut Output, what: &[u8], how: &[u8]) -> Failure
        ensures { result ≡ Failure.Unusable }
    {
        out.text(b"burner: ");
        out.text(what);
        out.text(how);
        self.form(out);
        out.line_end();
        sentences::send(out);
        Failure::Unusable
    }

    pub fn too_long(self, out: &mut Output, what: &[u8]) -> Failure
        ensures { result ≡ Failure.Unusable }
    {
        self.wrong(out, what, b" is too long; ")
    }

    // The argument i should be a number.
    pub fn no_number(self, rt: &HostRuntime, out: &mut Output, i: usize) -> Failure
        ensures { result ≡ Failure.Unusable }
    {
        let mut buf = io::buffer();
        match arguments::text(rt, i, &mut buf) {
            Some(text) => self.wrong(out, text, b" is no number below 2^64; "),
            None => self.too_long(out, b"a number"),
        }
    }

    // The argument i as a choice.
    pub fn choice(self, rt: &HostRuntime, out: &mut Output, i: usize) -> Result<bool, Failure>
        ensures { IfErr result (λ f. f ≡ Failure.Unusable) }
    {
        match arguments::number(rt, i) {
            Some(0) => Ok(false),
            Some(1) => Ok(true),
            _ => Err(self.wrong(out, b"CHOICE", b" is 0 or 1; ")),
        }
    }

    // There are too few arguments or too many.
    pub fn wrong_count(self, out: &mut Output, n: usize) -> Failure
        ensures { result ≡ Failure.Unusable }
    {
        if self == Command::Winters && 1003 < n {
            return self.wrong(out, b"1000 seconds", b" are the most; ");
        }
        self.wrong(out, b"", b"")
    }
}

// The commands, a line each.
pub fn table(out: &mut Output) -> Result<(), Failure> {
    for c in COMMANDS {
        out.text(c.help());
        out.line_end();
    }
    send::page(out)
}
