// The names beside a file's: its own with a suffix, and its directory.
ghost use Rattle.std.specs.Prelude.{◌≡◌, ◌++◌, ◌≤◌, ◌↔◌, IsTrue, take};
ghost use Rattle.word_files.specs.Files.{PathFits};

use crate::files;
use std::fs::File;
use std::io::Error;

// The most bytes of a path, without the 0 that ends it.
const LONGEST: usize = 4095;

// Whether the path is not empty, and not too long with a suffix of so many bytes.
pub fn fits(path: &[u8], suffix: usize) -> bool
    ensures { IsTrue result ↔ PathFits path.now suffix }
{
    !path.is_empty() && suffix <= LONGEST && path.len() <= LONGEST - suffix
}

// A name of up to 4,096 bytes.
#[derive(Drop)]
pub struct Name {
    space: [u8; 4096],
    len: usize,
    ghost len_in_range: { len ≤ 4096 },
}

impl Name {
    // The path with the suffix, as far as there is room.
    pub fn join(path: &[u8], suffix: &[u8]) -> Name
        ensures { take result.len result.space ≡ take 4096 (path.now ++ suffix.now) }
    {
        let mut space = io::buffer();
        let k = path.len().min(4096);
        let m = suffix.len().min(4096 - k);
        space[..k].copy_from_slice(&path[..k]);
        space[k..k + m].copy_from_slice(&suffix[..m]);
        Name { space, len: k + m }
    }

    pub fn bytes(&self) -> &[u8]
        ensures { result.now ≡ take self.now.len self.now.space }
    {
        &self.space[..self.len]
    }
}

// Opens the directory that the file stands in.
pub fn open_directory(rt: &HostRuntime, path: &[u8]) -> Result<File, Error> {
    match path.iter().rposition(|b| *b == b'/') {
        Some(i) => files::open_read(rt, &path[..i + 1]),
        None => files::open_read(rt, b"."),
    }
}
