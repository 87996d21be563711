// Folding: the cuts of a set of layouts in folding's order, counted.
#![tactic(auto)]

pub mod chain;
pub mod count;
pub mod fold;
pub mod key;
pub mod lines;
pub mod strip;
