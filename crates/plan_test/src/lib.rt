// The plan test.
#![tactic(auto)]

pub mod call;
pub mod listed_job;
pub mod opened;
pub mod plan_row;
pub mod sums;
