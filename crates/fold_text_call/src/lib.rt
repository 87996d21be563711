// The fold text, from bytes to bytes.
#![tactic(auto)]

pub mod call;
