// A sparse bit vector: the places of its ones are a record, and its questions are the record's.
//
// A vector is its length, its rank choice and its image. One of zeros, the empty one among them, has no image.
#![tactic(auto)]

pub mod build;
pub mod queries;
pub mod vector;
