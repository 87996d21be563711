// Strips of layouts: refusals 16, 17 and 18 of the layouts row.
#![tactic(auto)]

pub mod begins;
pub mod lines;
pub mod past;
pub mod positions;
pub mod spot;
pub mod stack;
pub mod stage;
pub mod strip;
