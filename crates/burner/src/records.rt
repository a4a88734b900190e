// The commands that need no image: `log`, `finish` and `limit`.
use crate::arguments;
use crate::usage::Command;
use burner_questions::send;
use console_text::output::Output;
use elias_fano::builder;
use record_file::opening::Settings;
use record_file::sentences;
use word_files::say::Failure;

pub fn log(rt: &HostRuntime, words: &mut [u64; 524288], out: &mut Output) -> Result<(), Failure> {
    let every = arguments::number(rt, 5).unwrap_or(1);
    if every == 0 {
        return Err(Command::Log.wrong(out, b"EVERY", b" is 1 at least; "));
    }
    let mut space = io::buffer();
    let Some(file) = arguments::text(rt, 2, &mut space) else {
        return Err(Command::Log.too_long(out, b"FILE"));
    };
    let settings = Settings {
        universe: arguments::number(rt, 3).unwrap_or(0),
        num_vals: arguments::number(rt, 4).unwrap_or(0),
    };
    burner_log::log(rt, file, settings, every, words, out)
}

pub fn finish(
    rt: &HostRuntime,
    words: &mut [u64; 524288],
    out: &mut Output,
) -> Result<(), Failure> {
    let rank = Command::Finish.choice(rt, out, 4)?;
    let mut space = io::buffer();
    let Some(file) = arguments::text(rt, 2, &mut space) else {
        return Err(Command::Finish.too_long(out, b"FILE"));
    };
    let mut image_space = io::buffer();
    let Some(image) = arguments::text(rt, 3, &mut image_space) else {
        return Err(Command::Finish.too_long(out, b"IMAGE"));
    };
    burner_log::finish(rt, file, image, rank, words, out)
}

// `N words, B bytes`: a word has 8 bytes, and no file has as many as do not fit.
pub fn limit(rt: &HostRuntime, out: &mut Output) -> Result<(), Failure> {
    let rank = Command::Limit.choice(rt, out, 4)?;
    let universe = arguments::number(rt, 2).unwrap_or(0);
    let count = arguments::number(rt, 3).unwrap_or(0);
    match builder::limit(universe, count, rank) {
        Ok(n) => {
            out.number(n as u64);
            out.text(b" words, ");
            out.number((n as u64).saturating_mul(8));
            out.text(b" bytes\n");
            send::page(out)
        }
        Err(e) => Err(sentences::no_record(out, e)),
    }
}
