// What the readers of the saw text and of the fold text share (document 01, Texts).
#![tactic(auto)]

pub mod job_lines;
pub mod judge;
pub mod kinds;
pub mod line_row;
pub mod pending;
pub mod scan;
pub mod text;
pub mod turns;
pub mod words;
