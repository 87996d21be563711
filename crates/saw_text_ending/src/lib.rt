// The end of a saw text: what is written, row by row.
#![tactic(auto)]

pub mod ending;
pub mod finish;
