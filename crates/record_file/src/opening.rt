// The record that a command goes on with: that of the file, or of what was kept of it under its name with `.1`.
use crate::{KeptError, restore, sentences};
use console_text::output::Output;
use elias_fano::builder::{Builder, new};
use word_files::names::Name;
use word_files::say::Failure;
use word_files::{files, names, say};

// The settings of a record.
#[derive(Clone, Copy, Debug, PartialEq, Eq)]
pub struct Settings {
    pub universe: u64,
    pub num_vals: u64,
}

// Why a file gives no record to go on with.
#[derive(Clone, Copy, PartialEq, Eq)]
enum SeenError {
    // It gives none at all.
    Kept(KeptError),
    // It holds a record of other settings.
    Other,
}

impl From<KeptError> for SeenError {
    fn from(e: KeptError) -> SeenError {
        SeenError::Kept(e)
    }
}

const MISSING: SeenError = SeenError::Kept(KeptError::Missing);

const UNREADABLE: SeenError = SeenError::Kept(KeptError::Unreadable);

// The file's record, where it has the settings that are wanted, if not any will do.
fn look(
    rt: &HostRuntime,
    file: &[u8],
    wanted: Option<Settings>,
    words: &mut [u64],
) -> Result<Builder, SeenError> {
    let b = restore(rt, file, words)?;
    let held = Settings {
        universe: b.universe,
        num_vals: b.num_vals,
    };
    match wanted {
        Some(s) if s != held => Err(SeenError::Other),
        _ => Ok(b),
    }
}

// Says why there is no record.
fn stop(file: &[u8], e: SeenError) -> Failure {
    match e {
        SeenError::Kept(KeptError::Missing) => say::unusable(file, b" is not there"),
        SeenError::Kept(KeptError::Unreadable) => say::unusable(file, b" cannot be read"),
        SeenError::Kept(KeptError::Refused) => {
            say::refused(file, b" holds no record that was kept whole")
        }
        SeenError::Kept(KeptError::TooLong) => {
            say::refused(file, b" has more words than there is room for")
        }
        SeenError::Other => say::refused(file, b" holds a record of another universe or count"),
    }
}

// Whether there is no file of this name. (A bool: a file that cannot be opened for another reason is there.)
fn is_free(rt: &HostRuntime, name: &[u8]) -> bool {
    match files::open_update(rt, name) {
        Ok(_) => false,
        Err(e) => files::is_missing(&e),
    }
}

// Renames the refused file, unless the name is taken, since the next save must not drop it: one step, which a cut leaves done or not.
fn set_aside(rt: &HostRuntime, file: &[u8]) -> Result<(), Failure> {
    let name = Name::join(file, b".refused");
    if !is_free(rt, name.bytes()) {
        return Err(say::refused(
            file,
            b" cannot be set aside: a file of its name with .refused is there",
        ));
    }
    if files::rename(rt, file, name.bytes()).is_err() {
        return Err(say::unusable(file, b" cannot be set aside under its name with .refused"));
    }
    say::of_file(file, b" is set aside under its name with .refused");
    Ok(())
}

fn begin(s: Settings, words: &mut [u64], out: &mut Output) -> Result<Builder, Failure> {
    new(s.universe, s.num_vals, words).map_err(|e| sentences::no_record(out, e))
}

// The name under which what the file held is kept.
fn older(file: &[u8]) -> Result<Name, Failure> {
    if !names::fits(file, 8) {
        say::sentence(b"the name of the file is empty or too long");
        return Err(Failure::Unusable);
    }
    Ok(Name::join(file, b".1"))
}

// The record of these settings to log to, which may be new: the older one where the file is not there, as after a cut between two renames, or is refused.
pub fn to_log(
    rt: &HostRuntime,
    file: &[u8],
    settings: Settings,
    words: &mut [u64],
    out: &mut Output,
) -> Result<Builder, Failure> {
    let name = older(file)?;
    let old = name.bytes();
    let seen = match look(rt, file, Some(settings), &mut *words) {
        Ok(b) => {
            sentences::holds(file, b, out);
            return Ok(b);
        }
        Err(e) => e,
    };
    if seen == UNREADABLE {
        return Err(stop(file, seen));
    }
    match look(rt, old, Some(settings), &mut *words) {
        Ok(b) => {
            if seen != MISSING {
                set_aside(rt, file)?;
            }
            sentences::holds(old, b, out);
            Ok(b)
        }
        Err(_) if seen != MISSING => Err(stop(file, seen)),
        Err(e) if e != MISSING => Err(stop(old, e)),
        Err(_) => begin(settings, words, out),
    }
}

// The record to finish, of any settings: the older one where the file gives none, but can be read.
pub fn to_finish(rt: &HostRuntime, file: &[u8], words: &mut [u64]) -> Result<Builder, Failure> {
    let name = older(file)?;
    let old = name.bytes();
    let seen = match look(rt, file, None, &mut *words) {
        Ok(b) => return Ok(b),
        Err(e) => e,
    };
    if seen == UNREADABLE {
        return Err(stop(file, seen));
    }
    let b = look(rt, old, None, words).map_err(|_| stop(file, seen))?;
    say::of_file(old, b" is taken instead");
    Ok(b)
}
