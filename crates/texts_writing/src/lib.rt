// What the two programs write: lines 7 and line 8, or lines 3, or one line 9 alone.
#![tactic(auto)]

pub mod lines3;
pub mod lines7;
pub mod output;
pub mod refusal;
pub mod sizes;
pub mod summary;
