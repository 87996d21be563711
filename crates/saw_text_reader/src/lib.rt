// The saw text, taken in parts.
#![tactic(auto)]

pub mod body;
pub mod next;
pub mod prices;
pub mod ready;
pub mod saw;
pub mod whole;
