// The bytes of the longest output of each program; `texts_writing/Wrote` has the same as definitions.
use job::sizes::MAX_PIECES;
use texts::widths::{PLACEMENT_LINE, PLAN_LINE, SUMMARY_LINE};

// Of the saw program: 4,000 lines 7 and a line 8.
pub const LONGEST_SAW: usize = PLACEMENT_LINE * (MAX_PIECES as usize) + SUMMARY_LINE;

// Of the fold program: 4,000 lines 3.
pub const LONGEST_FOLD: usize = PLAN_LINE * (MAX_PIECES as usize);
