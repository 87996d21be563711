// The lines of layout words: their limits, how they may lie, their turns, and what they lack.
#![tactic(auto)]

pub mod demands;
pub mod limits;
pub mod permitted;
pub mod turns;
