// Words in files: a file holds words of 8 bytes, little end first.
#![tactic(auto)]

ghost use Rattle.std.specs.Prelude.{◌≡◌, length, IfOk, IfErr};
ghost use Rattle.std.specs.IoError.{error_kind};
ghost use Rattle.word_files.specs.Files.{Within, PathFits};

pub mod bytes;
pub mod files;
pub mod names;
mod reading;
mod saving;
pub mod say;

use std::io::{Error, ErrorKind};

// Why a file does not give its words.
#[derive(Clone, Copy, Debug, PartialEq, Eq)]
pub enum LoadError {
    // There is no such file.
    Missing,
    // It cannot be opened or read.
    Unreadable,
    // Its length is no multiple of 8 bytes.
    Cut,
    // It has more words than are lent.
    TooLong,
}

// An open file that cannot be read.
impl From<Error> for LoadError {
    fn from(_e: Error) -> LoadError {
        LoadError::Unreadable
    }
}

// A file that is not saved. Why is not told: who asked for it says that it cannot be written.
#[derive(Clone, Copy, Debug, PartialEq, Eq)]
pub struct NotSaved;

impl From<Error> for NotSaved {
    fn from(_e: Error) -> NotSaved {
        NotSaved
    }
}

// A file that cannot be opened.
fn not_opened(e: &Error) -> LoadError {
    if files::is_missing(e) {
        LoadError::Missing
    } else {
        LoadError::Unreadable
    }
}

// The file's words, at the front of those that are lent; answers how many they are.
pub fn load(rt: &HostRuntime, path: &[u8], words: &mut [u64]) -> Result<usize, LoadError>
    ensures { Within (length words.old) result }
{
    match files::open_read(rt, path) {
        Ok(file) => reading::load_open(file, words),
        Err(e) => Err(not_opened(&e)),
    }
}

// The head and then the words become the file. On an error the file that stood there stands there still, unless only the directory could not be synced.
pub fn save(rt: &HostRuntime, path: &[u8], head: &[u64], words: &[u64]) -> Result<(), Error>
    ensures saved { IfOk result (λ _. PathFits path.now 4) }
    ensures refused { (PathFits path.now 4 → ⊥) → IfErr result (λ e. error_kind e ≡ ErrorKind.InvalidInput) }
{
    if !names::fits(path, 4) {
        return Err(Error::from(ErrorKind::InvalidInput));
    }
    let dir = names::open_directory(rt, path)?;
    saving::save_in(rt, &dir, path, head, words)
}

// `save`, without the system's error. (If it called `save` and dropped the error, a save of `burner` took 168 instructions more.)
pub fn save_dropping_error(
    rt: &HostRuntime,
    path: &[u8],
    head: &[u64],
    words: &[u64],
) -> Result<(), NotSaved>
    ensures { IfOk result (λ _. PathFits path.now 4) }
{
    if !names::fits(path, 4) {
        return Err(NotSaved);
    }
    let dir = names::open_directory(rt, path)?;
    saving::save_in(rt, &dir, path, head, words)?;
    Ok(())
}

#[cfg(test)]
mod tests {
    use super::*;
    use std::test::Fail;

    // The file has the words, and the older one stands beside it. A file that is not saved is told by the error's kind, and by `NotSaved`.
    #[test]
    fn saves(rt: HostRuntime) -> Result<(), Fail> {
        let path = b"saved";
        save(&rt, path, &[1], &[2, u64::MAX])?;
        let mut words = [0; 4];
        assert_eq!(rt; load(&rt, path, &mut words)?, 3);
        assert_eq!(rt; words, [1, 2, u64::MAX, 0]);
        save_dropping_error(&rt, path, &[], &[7])?;
        assert_eq!(rt; load(&rt, path, &mut words)?, 1);
        assert_eq!(rt; words[0], 7);
        assert_eq!(rt; load(&rt, b"saved.1", &mut words)?, 3);
        files::unlink(&rt, path)?;
        files::unlink(&rt, b"saved.1")?;
        let none = b"none/saved";
        assert_eq!(rt;
            save(&rt, none, &[], &[7]).map_err(|e| e.kind()),
            Err(ErrorKind::NotFound)
        );
        assert_eq!(rt;
            save(&rt, b"", &[], &[7]).map_err(|e| e.kind()),
            Err(ErrorKind::InvalidInput)
        );
        assert_eq!(rt; save_dropping_error(&rt, none, &[], &[7]), Err(NotSaved));
        Ok(())
    }
}
