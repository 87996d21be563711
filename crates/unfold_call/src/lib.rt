// The unfolding of an accepted plan, and its call.
#![tactic(auto)]

pub mod call;
