// The lines of a saw text: what each makes of what is kept.
#![tactic(auto)]

pub mod held;
pub mod numbers;
