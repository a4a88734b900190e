// The system's files, by names of bytes. The library's paths are text: a name that is no UTF-8 text is one that cannot be opened.
ghost use Rattle.std.specs.Prelude.{◌≡◌, ◌↔◌, IsTrue};
ghost use Rattle.std.specs.IoError.{error_kind};

use std::fs;
use std::fs::{File, OpenOptions};
use std::io::{Error, ErrorKind};

fn text(path: &[u8]) -> Result<&str, Error> {
    str::from_utf8(path).map_err(|_| Error::from(ErrorKind::InvalidInput))
}

// Whether a call failed because there is no such file.
pub fn is_missing(e: &Error) -> bool
    ensures { IsTrue result ↔ (error_kind e.now ≡ ErrorKind.NotFound) }
{
    e.kind() == ErrorKind::NotFound
}

pub fn open_read(rt: &HostRuntime, path: &[u8]) -> Result<File, Error> {
    File::open(rt, text(path)?)
}

// Opens the file for writing and empties it, or makes it.
pub fn open_overwrite(rt: &HostRuntime, path: &[u8]) -> Result<File, Error> {
    File::create(rt, text(path)?)
}

// Opens the file for reading and writing, and leaves its bytes as they are.
pub fn open_update(rt: &HostRuntime, path: &[u8]) -> Result<File, Error> {
    OpenOptions::new()
        .read(true)
        .write(true)
        .open(rt, text(path)?)
}

pub fn rename(rt: &HostRuntime, from: &[u8], to: &[u8]) -> Result<(), Error> {
    fs::rename(rt, text(from)?, text(to)?)
}

pub fn unlink(rt: &HostRuntime, path: &[u8]) -> Result<(), Error> {
    fs::remove_file(rt, text(path)?)
}
