// The program `burner`, for the bench and the service laptop: a record kept in a file, the image made of it, and questions over images. Its exit status is
// 0 done, 1 refused, 2 usage or a file that cannot be read or written.
#![tactic(auto)]

mod arguments;
mod images;
mod records;
mod usage;

use console_text::output::Output;
use std::process::ExitCode;
use usage::Command;
use word_files::say;
use word_files::say::Failure;

// A command whose arguments are in form. The words and the output are no struct's: methods that lend both beside a local get no proof.
fn run(
    rt: &HostRuntime,
    command: Command,
    words: &mut [u64; 524288],
    out: &mut Output,
) -> Result<(), Failure> {
    match command {
        Command::Log => records::log(rt, words, out),
        Command::Finish => records::finish(rt, words, out),
        Command::Limit => records::limit(rt, out),
        Command::Check | Command::List | Command::Ask | Command::Winters => {
            images::answer(rt, command, words, out)
        }
    }
}

// First the number of arguments is tested, and then whether numbers stand where they should.
fn numbered(
    rt: &HostRuntime,
    command: Command,
    words: &mut [u64; 524288],
    out: &mut Output,
) -> Result<(), Failure> {
    let n = arguments::count(rt);
    if !command.fits(n) {
        return Err(command.wrong_count(out, n));
    }
    if let Some(from) = command.first_number() {
        if let Some(i) = arguments::first_wrong(rt, from, n) {
            return Err(command.no_number(rt, out, i));
        }
    }
    run(rt, command, words, out)
}

// Which command the argument 1 names.
fn named(rt: &HostRuntime) -> Result<Command, Failure> {
    let mut space = io::buffer();
    match arguments::text(rt, 1, &mut space) {
        Some(name) => Command::named(name).ok_or_else(|| say::unusable(
            name,
            b" is no command; burner alone lists them",
        )),
        None => {
            say::sentence(b"the command is too long; burner alone lists them");
            Err(Failure::Unusable)
        }
    }
}

// Everything is on the stack: the words, of which a file may have as many, and the output.
pub fn burner(rt: &HostRuntime) -> Result<(), Failure> {
    let mut words = [0u64; 524288];
    let mut out = Output::new();
    if arguments::count(rt) < 2 {
        return usage::table(&mut out);
    }
    numbered(rt, named(rt)?, &mut words, &mut out)
}

fn main(rt: HostRuntime) -> ExitCode {
    match burner(&rt) {
        Ok(()) => ExitCode::SUCCESS,
        Err(Failure::Refused) => ExitCode::FAILURE,
        Err(Failure::Unusable) => ExitCode::from(2),
    }
}
