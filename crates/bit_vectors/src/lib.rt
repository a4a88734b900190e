// Bit vectors: lent words and a length.
#![tactic(auto)]

pub mod bit_vector;
pub mod unary;
