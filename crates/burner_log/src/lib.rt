// The burner's commands that write: `log` files the times that standard input gives into a record in a file, `finish` makes an image of it.
#![tactic(auto)]

mod lines;

use console_text::output::Output;
use elias_fano::builder::{build, limit};
use lines::Log;
use record_file::opening::Settings;
use record_file::{keep_dropping_error, opening, sentences};
use word_files::say;
use word_files::say::Failure;

fn too_large(out: &mut Output, n: usize, len: usize) -> Failure {
    out.text(b"burner: the record may need ");
    out.number(n as u64);
    out.text(b" words, and there is room for ");
    out.number(len as u64);
    out.line_end();
    sentences::send(out);
    Failure::Refused
}

// Whether every record of these settings, and each image of it, has room in so many words.
fn test_settings(settings: Settings, len: usize, out: &mut Output) -> Result<(), Failure> {
    match limit(settings.universe, settings.num_vals, true) {
        Ok(n) if len < n => Err(too_large(out, n, len)),
        Ok(_) => Ok(()),
        Err(e) => Err(sentences::no_record(out, e)),
    }
}

// Logs to the record in the file: as many lines as standard input has, with a save after so many accepted ones.
// A record without a start is saved before the first line is read: so the file is there, and can be written.
pub fn log(
    rt: &HostRuntime,
    file: &[u8],
    settings: Settings,
    every: u64,
    words: &mut [u64],
    out: &mut Output,
) -> Result<(), Failure> {
    test_settings(settings, words.len(), out)?;
    let record = opening::to_log(rt, file, settings, &mut *words, out)?;
    if record.num_pushed == 0 && keep_dropping_error(rt, file, record, &*words).is_err() {
        return Err(say::unusable(file, b" cannot be written"));
    }
    Log::begin(rt, file, record, every, words, out).run()
}

// Writes the image, which the first n words are: `ok N words`, on standard output.
fn write_image(
    rt: &HostRuntime,
    image: &[u8],
    words: &[u64],
    n: usize,
    out: &mut Output,
) -> Result<(), Failure> {
    let made = words.get(..n).ok_or(Failure::Refused)?;
    if word_files::save_dropping_error(rt, image, &[], made).is_err() {
        return Err(say::unusable(image, b" cannot be written"));
    }
    out.text(b"ok ");
    out.number(n as u64);
    out.text(b" words\n");
    out.flush();
    Ok(())
}

// Makes an image of the record in the file, with an index over the zeros for `rank`.
pub fn finish(
    rt: &HostRuntime,
    file: &[u8],
    image: &[u8],
    rank: bool,
    words: &mut [u64],
    out: &mut Output,
) -> Result<(), Failure> {
    let record = opening::to_finish(rt, file, &mut *words)?;
    match build(record, rank, &mut *words) {
        Ok(n) => write_image(rt, image, words, n, out),
        Err(e) => Err(sentences::refused(out, b"no image can be made of it here", e)),
    }
}
