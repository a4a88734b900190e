// The program's arguments. The first, 0, is the program's own name.
use std::env::{Env, FillError};

// How many arguments the program was started with, its own name among them.
pub fn count(rt: &HostRuntime) -> usize {
    let mut start = [0u8; 1];
    for i in 0..usize::MAX {
        if let Err(FillError::NotPresent) = rt.arg(i, &mut start) {
            return i;
        }
    }
    usize::MAX
}

// The argument i as it is. None: there is no such argument, or it is longer than the buffer.
pub fn text<'a>(rt: &HostRuntime, i: usize, buf: &'a mut [u8; 4096]) -> Option<&'a [u8]> {
    let n = rt.arg(i, buf).ok()?;
    buf.get(..n)
}

// The argument i as a number. None: it is no number below 2^64.
pub fn number(rt: &HostRuntime, i: usize) -> Option<u64> {
    let mut buf = io::buffer();
    decimal::parse(text(rt, i, &mut buf)?).ok()
}

// The first argument from `from` on, of n, that is no number below 2^64.
pub fn first_wrong(rt: &HostRuntime, from: usize, n: usize) -> Option<usize> {
    (from..n).find(|i| number(rt, *i).is_none())
}
