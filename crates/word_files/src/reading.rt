// Reading the words of an open file.
ghost use Rattle.std.specs.Prelude.{◌≤◌, length, IfOk};
ghost use Rattle.word_files.specs.Files.{Within};

use crate::LoadError;
use crate::bytes::unpack;
use std::fs::File;
use std::io::{Error, Read};

// Reads until the buffer is full or the file ends, and answers how many bytes it read: the library's `read_to_end` needs the heap.
fn fill(file: &mut File, buf: &mut [u8]) -> Result<usize, Error>
    ensures { IfOk result (λ n. n ≤ length buf.old) }
{
    let mut done: usize = 0;
    while done < buf.len() {
        let n = file.read(&mut buf[done..])?;
        if n == 0 {
            break;
        }
        done += n;
    }
    Ok(done)
}

// The words of bytes that fill the buffer, or with which the file ends.
fn words_of(buf: &[u8], words: &mut [u64]) -> Result<usize, LoadError>
    ensures { Within (length words.old) result }
{
    let n = unpack(buf, &mut *words);
    if buf.len() % 8 == 0 && n == buf.len() / 8 {
        return Ok(n);
    }
    if n == words.len() {
        return Err(LoadError::TooLong);
    }
    Err(LoadError::Cut)
}

// As many words as the buffer holds, or 0 at the end of the file.
fn load_some(file: &mut File, buf: &mut [u8], words: &mut [u64]) -> Result<usize, LoadError>
    ensures { Within (length words.old) result }
{
    let n = fill(file, &mut *buf)?;
    words_of(&buf[..n], words)
}

// Until the file ends, which the last `load_some` alone tells: no `for` has its number of turns.
fn load_all(file: &mut File, buf: &mut [u8], words: &mut [u64]) -> Result<usize, LoadError>
    ensures { Within (length words.old) result }
{
    let mut n: usize = 0;
    loop {
        let m = load_some(&mut *file, &mut *buf, &mut words[n..])?;
        if m == 0 {
            return Ok(n);
        }
        n += m;
    }
}

// Reads an open file to its end, and closes it.
pub fn load_open(mut file: File, words: &mut [u64]) -> Result<usize, LoadError>
    ensures { Within (length words.old) result }
{
    let mut space = io::large_buffer();
    load_all(&mut file, &mut space, words)
}
