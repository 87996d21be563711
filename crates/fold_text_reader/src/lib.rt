// The fold text, taken in parts.
#![tactic(auto)]

pub mod fold;
pub mod lines;
pub mod ready;
