// The refusals of every layer. A refused call alters no word.
#![tactic(auto)]

ghost use Rattle.std.specs.Prelude.{◌≡◌};
ghost use Rattle.errors.specs.Refusal.{number_of};

use std::error::Error;
use std::fmt;

// Each has its number in documents 01 and 02.
#[derive(Clone, Copy, Debug, PartialEq, Eq)]
pub enum Refusal {
    // No values are declared.
    NoValues = 1,
    // More values, ones or items than a record may have.
    TooMany = 2,
    // The lent buffer is too short.
    ShortBuffer = 3,
    // A value is below the last one.
    Decreasing = 4,
    // A value is not below the universe.
    OutOfUniverse = 5,
    // As many values as declared are there.
    Full = 6,
    // No such image or builder.
    Invalid = 7,
    // A question needs the rank index, and the image has none.
    NoRankIndex = 8,
    // A range that is not empty ends past the values.
    RangeOutOfBounds = 9,
    // There are no bits.
    NoBits = 10,
    // No bit is set.
    NoOnes = 11,
    // The sum of the items is too large.
    SumTooLarge = 12,
    // The length needs more words than are lent, or a bit past it is set.
    InvalidBits = 13,
    // More than 64 bits are pushed at once.
    WideBits = 14,
    // The pushed bits do not fit.
    NoRoom = 15,
    // A place lies past the bits.
    OutOfBounds = 16,
    // The words are not windows of a week, or more than 32 of them.
    InvalidWindows = 17,
}

impl From<Refusal> for u64 {
    ghost from_gives = { λ r n. n ≡ number_of r };

    fn from(r: Refusal) -> u64 {
        r as u64
    }
}

impl fmt::Display for Refusal {
    fn fmt<W: fmt::Write>(&self, f: &mut fmt::Formatter<W>) -> fmt::Result {
        write!(f, "refused {}", u64::from(*self))
    }
}

impl Error for Refusal {}
