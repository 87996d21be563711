// The checks of layouts, up to the layouts row.
#![tactic(auto)]

pub mod front;
pub mod rows;
