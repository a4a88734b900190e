// The record: a whole list pushed, and a walk. What else the bench asks of a record it asks through the library for C.
ghost use Rattle.elias_fano_walk.specs.Walking.{WalkOver};

use elias_fano::builder::{new, push};
use elias_fano::opened::Image;
use elias_fano_walk::walk::{Walk, begin, next};

// Pushes the times into a fresh record: how many it took.
#[unsafe(no_mangle)]
pub extern "C" fn bench_record_push(
    universe: u64,
    num_vals: u64,
    times: &[u64],
    buffer: &mut [u64],
) -> u64 {
    let Ok(start) = new(universe, num_vals, &mut *buffer) else {
        return 0;
    };
    let mut b = start;
    for t in times {
        let Ok(next) = push(b, *t, &mut *buffer) else {
            break;
        };
        b = next;
    }
    b.num_pushed
}

// So many steps of a walk: the sum of what they give, a none as 0.
fn walk_on(image: &Image, from: Walk, steps: usize) -> u64
    requires { WalkOver image.now.words.now image.now.parts from }
{
    let mut w = from;
    let mut sum: u64 = 0;
    for _ in 0..steps {
        let s = next(image, w);
        sum = sum.wrapping_add(s.value.unwrap_or(0));
        w = s.walk;
    }
    sum
}

// A walk over an image from its first time on. The image is opened once.
#[unsafe(no_mangle)]
pub extern "C" fn bench_record_walk(image: &[u64], steps: usize) -> u64 {
    let Ok(image) = Image::open(image) else {
        return 0;
    };
    walk_on(&image, begin(&image, 0), steps)
}
