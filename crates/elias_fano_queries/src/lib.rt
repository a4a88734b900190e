// The questions of a record that need no walk: gaps, rank, neighbours, and what its header says.
//
// Each public question opens the image first and decides 7 by it, in time linear in its words. The form for an image that is open costs a
// constant but for what its comment says.
#![tactic(auto)]

pub mod delta;
pub mod header;
pub mod neighbours;
pub mod rank;
