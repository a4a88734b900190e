// An iterator that holds the opened image and its walk.
//
// `start` decides whether the words are an image that some run writes, and finds the place; `next` gives a value and moves on. A step costs a constant
// and the high words that it passes.
ghost use Rattle.std.specs.Prelude.{◌≡◌};
ghost use Rattle.elias_fano.specs.Accept.{times};
ghost use Rattle.elias_fano_walk.specs.Walking.{WalkOver, value_step_of};
ghost use Rattle.elias_fano_forms.specs.Iterating.{Starts, of_moved};

use elias_fano::opened::Image;
use elias_fano_walk::walk::{Walk, begin};
use errors::Refusal;

#[derive(Clone, Copy)]
pub struct Iter<'a> {
    pub image: Image<'a>,
    pub walk: Walk,
}

// From the value with the number k on, in time linear in the words.
pub fn start<'a>(image: &'a [u64], k: usize) -> Result<Iter<'a>, Refusal>
    ensures { Starts image.entry.now k result }
{
    let image = Image::open(image)?;
    let walk = begin(&image, k);
    Ok(Iter { image, walk })
}

// The next value, or none, and none again. It demands the walk, and is no `Iterator`: a ghost field may not have two proofs, and that a walk is one has more.
pub fn next<'s, 'a>(it: &'s mut Iter<'a>) -> Option<u64>
    requires { WalkOver it.old.image.words.now it.old.image.parts it.old.walk }
    ensures { (of_moved result it.new ≡ value_step_of (times it.old.image.words.now) it.old.walk.number) × (it.new.image ≡ it.old.image) × WalkOver it.old.image.words.now it.old.image.parts it.new.walk }
{
    let s = elias_fano_walk::walk::next(&it.image, it.walk);
    it.walk = s.walk;
    s.value
}
