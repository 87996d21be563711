// The cut of a plate type and an item in a position, found by its pair.
#![tactic(auto)]

pub mod search;
