// The index of residual types: the number of a plate type, found by its bucket.
#![tactic(auto)]

pub mod index;
