// A list of numbers by the prefix sums of it: a record whose gaps they are.
#![tactic(auto)]

pub mod access;
pub mod build;
pub mod walk;
