// A monotone sequence by Elias-Fano encoding, in lent words.
#![tactic(auto)]

pub mod check;
pub mod sizes;
