// The saw text from bytes to bytes: whole, or in parts.
#![tactic(auto)]

pub mod call;
