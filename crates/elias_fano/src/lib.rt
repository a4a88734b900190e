// A monotone sequence by Elias-Fano encoding, in lent words.
#![tactic(auto)]

pub mod builder;
pub mod finish;
pub mod image;
pub mod opened;
