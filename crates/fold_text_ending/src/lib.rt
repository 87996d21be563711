// The end of a fold text: its last rows, the fold of its layouts, and what is written.
#![tactic(auto)]

pub mod ending;
pub mod finish;
pub mod fold_part;
pub mod line_row;
