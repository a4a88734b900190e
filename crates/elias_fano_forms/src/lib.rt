// The forms that hold a reference or alter by one: a builder that is lent to be altered, and an iterator that holds its image. Each is a thin
// function over one by value.
#![tactic(auto)]

pub mod builder;
pub mod iter;
