// The price test.
#![tactic(auto)]

pub mod call;
pub mod prices;
