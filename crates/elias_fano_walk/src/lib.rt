// Walking over the values of an opened image, and what is found by walking: reading out, and search.
#![tactic(auto)]

pub mod read;
pub mod search;
pub mod walk;
