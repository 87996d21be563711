// The saw text and the fold text.
#![tactic(auto)]

pub mod widths;
