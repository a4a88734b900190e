// Saving words in a file: written beside it, synced, and renamed over it. What stood there is kept under the name with `.1`.
use crate::bytes::pack;
use crate::files;
use crate::names::Name;
use std::fs::File;
use std::io::{Error, Write};

// What became of the file that stood there. (Both are good, so no Result; a bool would need these two words beside it.)
#[derive(Clone, Copy, PartialEq, Eq)]
enum Old {
    Kept,
    Missing,
}

// Writes as many words at a time as the buffer holds.
fn write_words(file: &mut File, words: &[u64], buf: &mut [u8; 65536]) -> Result<(), Error> {
    for part in words.chunks(8192) {
        let n = pack(part, buf);
        file.write_all(&buf[..8 * n])?;
    }
    Ok(())
}

// Writes both into an open file, syncs them, and closes it.
fn write_open(mut file: File, head: &[u64], words: &[u64]) -> Result<(), Error> {
    let mut space = io::large_buffer();
    write_words(&mut file, head, &mut space)?;
    write_words(&mut file, words, &mut space)?;
    file.sync_all()
}

// Makes the file anew; where that fails none of it is left.
fn write_file(rt: &HostRuntime, name: &[u8], head: &[u64], words: &[u64]) -> Result<(), Error> {
    let written = write_open(files::open_overwrite(rt, name)?, head, words);
    if written.is_err() {
        let _ = files::unlink(rt, name);
    }
    written
}

// Renames the file to the name, under which it is kept.
fn keep_old(rt: &HostRuntime, path: &[u8], kept: &[u8]) -> Result<Old, Error> {
    match files::rename(rt, path, kept) {
        Ok(()) => Ok(Old::Kept),
        Err(e) if files::is_missing(&e) => Ok(Old::Missing),
        Err(e) => Err(e),
    }
}

// Whether there is no file, or one that may be written: a directory is refused, and a file without the permission, which a rename would pass over.
fn test_replaceable(rt: &HostRuntime, path: &[u8]) -> Result<(), Error> {
    match files::open_update(rt, path) {
        Ok(_) => Ok(()),
        Err(e) if files::is_missing(&e) => Ok(()),
        Err(e) => Err(e),
    }
}

// The file that stands there is kept, and the new one takes its name.
fn replace(rt: &HostRuntime, path: &[u8], new: &[u8]) -> Result<(), Error> {
    let kept = Name::join(path, b".1");
    let old = keep_old(rt, path, kept.bytes())?;
    let renamed = files::rename(rt, new, path);
    if renamed.is_err() && old == Old::Kept {
        let _ = files::rename(rt, kept.bytes(), path);
    }
    renamed
}

// Saves in the open directory.
pub fn save_in(
    rt: &HostRuntime,
    dir: &File,
    path: &[u8],
    head: &[u64],
    words: &[u64],
) -> Result<(), Error> {
    test_replaceable(rt, path)?;
    let new = Name::join(path, b".new");
    write_file(rt, new.bytes(), head, words)?;
    let replaced = replace(rt, path, new.bytes());
    if replaced.is_err() {
        let _ = files::unlink(rt, new.bytes());
    }
    replaced?;
    dir.sync_all()
}
