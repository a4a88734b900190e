// What the console's sections share: lines as words and numbers, and the answers that it writes.
#![tactic(auto)]

pub mod line;
pub mod output;
pub mod reply;
