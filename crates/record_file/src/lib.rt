// A record that is still written, in a file: its builder's four numbers, the sum of them and the words, and then the words of its start.
#![tactic(auto)]

ghost use Rattle.std.specs.Prelude.{◌≡◌, ◌≤◌, length, take, IfOk, IfErr};
ghost use Rattle.std.specs.IoError.{error_kind};
ghost use Rattle.errors.specs.Answer.{done};
ghost use Rattle.elias_fano.specs.Steps.{resume_test};
ghost use Rattle.record_file.specs.Sum.{sum_of};
ghost use Rattle.darray.specs.Pending.{Decides};
ghost use Rattle.record_file.specs.Stored.{head_of, builder_of, StartLen, StartIs, Keepable, Right, Restores};

use elias_fano::builder::{Builder, resume};
use elias_fano_words::sizes::{MAX_VALS, of_record};
use std::io::{Error, ErrorKind};
use sums::sum;
use word_files::{LoadError, NotSaved};

pub mod opening;
pub mod sentences;
pub mod sums;

// Why a file gives no record.
#[derive(Clone, Copy, Debug, PartialEq, Eq)]
pub enum KeptError {
    // There is no such file.
    Missing,
    // It cannot be opened or read.
    Unreadable,
    // It holds no record as it was kept.
    Refused,
    // It has more words than are lent.
    TooLong,
}

impl From<LoadError> for KeptError {
    fn from(e: LoadError) -> KeptError {
        match e {
            LoadError::Missing => KeptError::Missing,
            LoadError::Unreadable => KeptError::Unreadable,
            LoadError::Cut => KeptError::Refused,
            LoadError::TooLong => KeptError::TooLong,
        }
    }
}

// How many words stand before those of the start.
const HEAD_LEN: usize = 5;

// How many words a start with the builder's settings has, where these are in range.
fn start_of(b: Builder) -> Option<usize>
    ensures { StartIs b result }
{
    if b.num_vals == 0 || b.num_vals > MAX_VALS {
        return None;
    }
    Some(of_record(b.universe, b.num_vals).start_len)
}

// What stands before the words of the start.
fn head(b: Builder, words: &[u64]) -> [u64; 5]
    ensures { result ≡ head_of b (sum_of b words.now) }
{
    let check = sum(b, words);
    [b.universe, b.num_vals, b.num_pushed, b.last, check]
}

// Saves the record: the builder and the words of its start, with which the lent ones begin.
pub fn keep(rt: &HostRuntime, path: &[u8], b: Builder, words: &[u64]) -> Result<(), Error>
    ensures kept { IfOk result (λ _. Keepable b words.now path.now) }
    ensures refused { (Keepable b words.now path.now → ⊥) → IfErr result (λ e. error_kind e ≡ ErrorKind.InvalidInput) }
{
    match start_of(b) {
        Some(n) if n <= words.len() => {
            let start = &words[..n];
            word_files::save(rt, path, &head(b, start), start)
        }
        _ => Err(Error::from(ErrorKind::InvalidInput)),
    }
}

// `keep`, without the system's error, over `save_dropping_error`.
pub fn keep_dropping_error(
    rt: &HostRuntime,
    path: &[u8],
    b: Builder,
    words: &[u64],
) -> Result<(), NotSaved>
    ensures { IfOk result (λ _. Keepable b words.now path.now) }
{
    match start_of(b) {
        Some(n) if n <= words.len() => {
            let start = &words[..n];
            word_files::save_dropping_error(rt, path, &head(b, start), start)
        }
        _ => Err(NotSaved),
    }
}

// The builder that stands in front.
fn builder_in(words: &[u64]) -> Builder
    requires { 5 ≤ length words.now }
    ensures { result ≡ builder_of words.now }
{
    Builder {
        universe: words[0],
        num_vals: words[1],
        num_pushed: words[2],
        last: words[3],
    }
}

// Whether so many words are those of a start with the builder's settings.
fn has_start(b: Builder, len: usize) -> bool
    ensures { Decides result (StartLen b len) }
{
    start_of(b) == Some(len)
}

// Whether the builder and the words of its start are those of the sum, and some run leaves them.
fn is_right(b: Builder, check: u64, words: &[u64]) -> bool
    ensures { Decides result (Right b check words.now) }
{
    sum(b, words) == check && resume(b, words).is_ok()
}

// The record of a file's n words. What is left of the lent ones past its start is 0.
fn taken(words: &mut [u64], n: usize) -> Result<Builder, KeptError>
    requires { n ≤ length words.old }
    ensures { Restores (take n words.old) words.new result }
{
    if n < HEAD_LEN {
        return Err(KeptError::Refused);
    }
    let b = builder_in(&*words);
    let check = words[4];
    let m = n - HEAD_LEN;
    if !has_start(b, m) {
        return Err(KeptError::Refused);
    }
    words.copy_within(HEAD_LEN..n, 0);
    words[m..n].fill(0);
    if is_right(b, check, &words[..m]) {
        Ok(b)
    } else {
        Err(KeptError::Refused)
    }
}

// The record that was kept, with the words of its start at the front of those that are lent: `resume` takes both.
pub fn restore(rt: &HostRuntime, path: &[u8], words: &mut [u64]) -> Result<Builder, KeptError>
    ensures { IfOk result (λ b. resume_test b words.new ≡ done) }
{
    let n = word_files::load(rt, path, &mut *words)?;
    taken(words, n)
}

#[cfg(test)]
mod tests {
    use super::*;
    use elias_fano::builder::{new, push};
    use std::test::Fail;
    use word_files::files::unlink;

    // What is kept is restored. A record that is not kept is told by the error's kind, and by `NotSaved`.
    #[test]
    fn keeps(rt: HostRuntime) -> Result<(), Fail> {
        let path = b"kept";
        let mut words = [0; 16];
        let b = new(100, 4, &mut words)?;
        keep_dropping_error(&rt, path, b, &words)?;
        let b = push(b, 60, &mut words)?;
        keep(&rt, path, b, &words)?;
        for (name, count, last) in [(&b"kept"[..], 1, 60), (b"kept.1", 0, 0)] {
            let mut back = [0; 16];
            let found = restore(&rt, name, &mut back)?;
            assert_eq!(rt; (found.num_pushed, found.last), (count, last));
            unlink(&rt, name)?;
        }
        let none = b"none/kept";
        assert_eq!(rt;
            keep(&rt, none, b, &words).map_err(|e| e.kind()),
            Err(ErrorKind::NotFound)
        );
        assert_eq!(rt;
            keep(&rt, path, b, &[0; 7]).map_err(|e| e.kind()),
            Err(ErrorKind::InvalidInput)
        );
        assert_eq!(rt; keep_dropping_error(&rt, none, b, &words), Err(NotSaved));
        Ok(())
    }
}
