// A walk over the items of an image, from a place on: each is the difference of two neighbouring values of the record's walk, and no item costs a
// select. Its state is a value beside the image, which each step takes again. `start_items` decides 7 once; no words have no items.
//
// `next_item` and `take_item` are inner: they demand the parts of the image and a walk over it, as `start_items` and each step leave it.
ghost use Rattle.std.specs.Prelude.{◌≡◌, ◌∷◌, ◌++◌, suc, ◌-◌, ◌≤◌, ◌<◌, length, get_or, take as take_list, drop};
ghost use Rattle.errors.specs.Answer.{leaves, of_result};
ghost use Rattle.elias_fano.specs.Accept.{parts_of, no_parts, times};
ghost use Rattle.elias_fano.specs.Ask.{read_out, filled};
ghost use Rattle.elias_fano_walk.specs.Walking.{value_step_of};
ghost use Rattle.prefix_summed_elias_fano.specs.Items.{items_of, ItemsOver, StartsItems, of_item_step, read_items_of};

use elias_fano::image::{Parts, no_parts, value_of};
use elias_fano::opened::Image;
use elias_fano_walk::read::how_many;
use elias_fano_walk::walk::{Walk, begin, ended, take};
use errors::Refusal;

#[derive(Clone, Copy)]
pub struct ItemWalk {
    // The value before the next one, 0 at first: the sum of the items before.
    pub before: u64,
    // From the next value on.
    pub values: Walk,
}

// The parts of an image, and a walk over it. (No opened image: a walk over no words has none.)
#[derive(Clone, Copy)]
pub struct ItemPlace {
    pub parts: Parts,
    pub walk: ItemWalk,
}

#[derive(Clone, Copy)]
pub struct ItemTaken {
    pub item: u64,
    pub rest: ItemWalk,
}

#[derive(Clone, Copy)]
pub struct ItemStep {
    pub item: Option<u64>,
    pub rest: ItemWalk,
}

// The sum of the items before the place k: the value before that with the number k.
fn sum_before(image: &Image, k: usize) -> u64
    ensures { result ≡ get_or (0 ∷ times image.now.words.now) k 0 }
{
    if k == 0 {
        return 0;
    }
    if k > image.parts.num_pushed as usize {
        return 0;
    }
    value_of(image, k - 1)
}

// The place k of an accepted image, as `begin` of the walk over its values.
fn begin_items(image: &Image, k: usize) -> ItemPlace
    ensures { ItemsOver image.now.words.now result.parts result.walk × (result.walk.values.number ≡ k) × (result.parts ≡ parts_of image.now.words.now) }
{
    ItemPlace {
        parts: image.parts,
        walk: ItemWalk {
            before: sum_before(image, k),
            values: begin(image, k),
        },
    }
}

// The place k of no words.
fn begin_none(k: usize) -> ItemPlace
    ensures { (result.parts ≡ no_parts) × (result.walk.values.number ≡ k) }
{
    ItemPlace {
        parts: no_parts(),
        walk: ItemWalk {
            before: 0,
            values: ended(k),
        },
    }
}

// The place of the item with the number k, in time linear in the words.
pub fn start_items(image: &[u64], k: usize) -> Result<ItemPlace, Refusal>
    ensures { StartsItems image.now k result }
{
    if image.is_empty() {
        return Ok(begin_none(k));
    }
    let image = Image::open(image)?;
    Ok(begin_items(&image, k))
}

// The next item, which there is.
pub fn take_item(image: &[u64], p: Parts, w: ItemWalk) -> ItemTaken
    requires { ItemsOver image.now p w × (w.values.number < p.num_pushed) }
    ensures { ItemsOver image.now p result.rest × (result.rest.values.number ≡ suc w.values.number) × (result.item ≡ get_or (items_of image.now) w.values.number 0) }
{
    let opened = Image {
        words: image,
        parts: p,
    };
    let t = take(&opened, w.values);
    ItemTaken {
        item: t.value - w.before,
        rest: ItemWalk {
            before: t.value,
            values: t.walk,
        },
    }
}

// The next item, or none, and none again.
pub fn next_item(image: &[u64], p: Parts, w: ItemWalk) -> ItemStep
    requires { ItemsOver image.now p w }
    ensures { ItemsOver image.now p result.rest × (of_item_step result ≡ value_step_of (items_of image.now) w.values.number) }
{
    if w.values.number >= p.num_pushed as usize {
        return ItemStep {
            item: None,
            rest: w,
        };
    }
    let t = take_item(image, p, w);
    ItemStep {
        item: Some(t.item),
        rest: t.rest,
    }
}

// The next `count` items are written to the first words of `out`.
fn take_items(image: &[u64], p: Parts, from: ItemWalk, count: usize, out: &mut [u64])
    requires { ItemsOver image.now p from × (count ≤ p.num_pushed - from.values.number) × (count ≤ length out.old) }
    ensures { out.new ≡ take_list count (drop from.values.number (items_of image.now)) ++ drop count out.old }
{
    let mut w = from;
    for i in 0..count {
        let t = take_item(image, p, w);
        out[i] = t.item;
        w = t.rest;
    }
}

// The items from a place on, as many as the words take; how many were written.
fn read_on(image: &[u64], c: ItemPlace, out: &mut [u64]) -> usize
    requires { ItemsOver image.now c.parts c.walk }
    ensures { result ≡ length (read_out (items_of image.now) c.walk.values.number (length out.old)) × (out.new ≡ filled (items_of image.now) c.walk.values.number out.old) }
{
    let p = c.parts;
    let from = c.walk;
    let count = how_many(p.num_pushed as usize, from.values.number, out.len());
    take_items(image, p, from, count, &mut *out);
    count
}

// The items from the place k on; how many were written. The later words stay.
pub fn read_items(image: &[u64], k: usize, out: &mut [u64]) -> Result<usize, Refusal>
    ensures { leaves (of_result result) out.new ≡ read_items_of image.now k out.old }
{
    let c = start_items(image, k)?;
    Ok(read_on(image, c, &mut *out))
}
