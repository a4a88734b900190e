// The program's questions over an image: each writes its answer to standard output, or fails with a sentence on standard error.
#![tactic(auto)]

ghost use Rattle.std.specs.Prelude.{◌≡◌};

pub mod ask;
mod cells;
mod figures;
pub mod list;
pub mod send;
pub mod table;

use elias_fano::opened::Image;
use word_files::say;
use word_files::say::Failure;

// The words of a file, which should be an image.
#[derive(Clone, Copy)]
pub struct ImageFile<'a> {
    pub path: &'a [u8],
    pub words: &'a [u64],
}

impl<'a> ImageFile<'a> {
    // Words that are no image are refused with 7.
    fn refused(self) -> Failure
        ensures { result ≡ Failure.Refused }
    {
        say::refused(self.path, b" is not an image (refused 7)")
    }

    fn open(self) -> Result<Image<'a>, Failure> {
        Image::open(self.words).map_err(|_| self.refused())
    }

    // `check`: whether it is an image.
    pub fn check(self) -> Result<(), Failure> {
        self.open()?;
        send::whole(b"ok\n")
    }
}
