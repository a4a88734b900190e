// An accepted image, and where its parts stand: what the questions of an opened image take.
ghost use Rattle.std.specs.Prelude.{◌≡◌, true};
ghost use Rattle.elias_fano.specs.Accept.{accepted, parts_of};

use crate::image::{Parts, open};
use errors::Refusal;

#[derive(Clone, Copy)]
pub struct Image<'a> {
    pub words: &'a [u64],
    pub parts: Parts,
    pub ghost ok: { accepted words.now ≡ true },
    pub ghost right: { parts ≡ parts_of words.now },
}

impl<'a> Image<'a> {
    ghost use Rattle.elias_fano.specs.Opened.{Opens};

    // Opens the words, in time linear in them (document 01: opening).
    pub fn open(words: &'a [u64]) -> Result<Image<'a>, Refusal>
        ensures { Opens words.entry.now result }
    {
        let parts = open(words)?;
        Ok(Image { words, parts })
    }
}
