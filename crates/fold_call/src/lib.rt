// The folding call.
#![tactic(auto)]

pub mod boards;
pub mod call;
