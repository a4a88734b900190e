// The positions of a bit vector's ones or zeros: what a select index over them is (specs/), and how they are found word by word.
//
// The functions are inner: each demands the words that it reads, and where it searches, that there is something to find.
#![tactic(auto)]

pub mod scan;
