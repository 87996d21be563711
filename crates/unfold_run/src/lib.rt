// The run of an unfolding: step after step, board after board.
#![tactic(auto)]

pub mod remaining;
pub mod run;
