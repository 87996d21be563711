// The rows of a saw text that ends, each by what is kept of the text, and the unfolding of its plan.
#![tactic(auto)]

pub mod line_row;
pub mod plan_part;
pub mod price_part;
pub mod unfolding_part;
