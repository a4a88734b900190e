// `walk K COUNT`: the answers of a walk from K. The image is opened once.
ghost use Rattle.std.specs.Prelude.{◌≡◌};
ghost use Rattle.elias_fano.specs.Accept.{times};
ghost use Rattle.elias_fano_walk.specs.Walking.{WalkOver};
ghost use Rattle.console_text.specs.Held.{held};
ghost use Rattle.console_questions.specs.Questions.{walk_of};

use crate::steps::{Steps, walked};
use console_text::output::{Output, Reply};
use console_text::reply::ToReply;
use elias_fano::opened::Image;
use elias_fano_walk::walk::{Walk, begin, next};

// A walk with its image.
#[derive(Drop)]
struct Values<'a> {
    image: Image<'a>,
    walk: Walk,
}

impl<'a> Steps for Values<'a> {
    ghost ready = { λ v. WalkOver v.image.words.now v.image.parts v.walk };

    ghost over = { λ v. times v.image.words.now };

    ghost number = { λ v. v.walk.number };

    fn step(&mut self) -> Reply {
        let s = next(&self.image, self.walk);
        self.walk = s.walk;
        s.value.reply()
    }
}

pub fn answer(image: &[u64], k: usize, count: usize, out: &mut Output)
    ensures { held out.new ≡ walk_of image.now k count (held out.old) }
{
    match Image::open(image) {
        Ok(image) => {
            let walk = begin(&image, k);
            walked(&mut Values { image, walk }, count, out);
        }
        Err(e) => out.refusal(e),
    }
}
