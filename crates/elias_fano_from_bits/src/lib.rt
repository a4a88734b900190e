// The record of a bit vector: its values are the places of the ones.
#![tactic(auto)]

pub mod build;
pub mod measure;
