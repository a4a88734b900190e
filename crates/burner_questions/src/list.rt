// `list`: the times, one a line. The image is opened once, and walked once.
ghost use Rattle.std.specs.Prelude.{◌≡◌, ◌-◌, min};

use crate::{ImageFile, send};
use console_text::output::Output;
use elias_fano::opened::Image;
use elias_fano_walk::walk::{begin, next};
use word_files::say::Failure;

// How many of n times there are from `from` on, `count` at most.
fn left(n: u64, from: u64, count: u64) -> u64
    ensures { result ≡ min count (n - from) }
{
    count.min(n.saturating_sub(from))
}

// The next `count` times, until a write fails.
fn walked(image: &Image, from: u64, count: u64, out: &mut Output) -> Result<(), Failure> {
    let mut w = begin(image, from as usize);
    for _ in 0..left(image.parts.num_pushed, from, count) {
        let s = next(image, w);
        if let Some(time) = s.value {
            out.number(time);
            out.line_end();
            send::full_page(out)?;
        }
        w = s.walk;
    }
    send::page(out)
}

// The times from the number `from` on, `count` at most.
pub fn answer(file: ImageFile, from: u64, count: u64, out: &mut Output) -> Result<(), Failure> {
    walked(&file.open()?, from, count, out)
}
