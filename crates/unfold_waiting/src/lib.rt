// What an unfolding holds while it runs: the pieces that wait, where the cuts of each plate type begin, the counts that are left and the search in a type's
// part of them, and where an item comes in turn.
#![tactic(auto)]

pub mod begins;
pub mod counts;
pub mod left;
pub mod search;
pub mod turn;
pub mod waiting;
