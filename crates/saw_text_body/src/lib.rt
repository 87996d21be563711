// The body of a saw text by itself: the model of its job, its lines 3 and their counts, and its prices.
#![tactic(auto)]

pub mod model;
pub mod plan_lines;
pub mod price_lines;
