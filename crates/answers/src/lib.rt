// What a call leaves to a host: three words, and four of the unfolding.
#![tactic(auto)]

pub mod words;
