// `sums_walk COUNT`: the answers of a walk over the items. The image is opened once.
ghost use Rattle.std.specs.Prelude.{◌≡◌};
ghost use Rattle.prefix_summed_elias_fano.specs.Items.{items_of, ItemsOver};
ghost use Rattle.console_text.specs.Held.{held};
ghost use Rattle.console_sums.specs.Commands.{walk_items_of};

use console_questions::steps::{Steps, walked};
use console_text::output::{Output, Reply};
use console_text::reply::ToReply;
use elias_fano::image::Parts;
use prefix_summed_elias_fano::walk::{ItemWalk, next_item, start_items};

// A walk with its image.
#[derive(Drop)]
struct Items<'a> {
    image: &'a [u64],
    parts: Parts,
    walk: ItemWalk,
}

impl<'a> Steps for Items<'a> {
    ghost ready = { λ w. ItemsOver w.image.now w.parts w.walk };

    ghost over = { λ w. items_of w.image.now };

    ghost number = { λ w. w.walk.values.number };

    fn step(&mut self) -> Reply {
        let s = next_item(self.image, self.parts, self.walk);
        self.walk = s.rest;
        s.item.reply()
    }
}

pub fn answer(image: &[u64], count: usize, out: &mut Output)
    ensures { held out.new ≡ walk_items_of image.now count (held out.old) }
{
    match start_items(image, 0) {
        Ok(c) => {
            let parts = c.parts;
            let walk = c.walk;
            walked(&mut Items { image, parts, walk }, count, out);
        }
        Err(e) => out.refusal(e),
    }
}
