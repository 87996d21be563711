// The columns of a number and the numbers of a line; `columns/Widths` has the same as definitions.

// The columns of a number.
pub const GROUP: usize = 9;

// Its columns before the last.
pub const LEAD: usize = GROUP - 1;

// The first of these, which are looked at together where not all eight are blank.
pub const FRONT: usize = LEAD / 2;

// The most numbers of a line.
pub const MOST_NUMBERS: usize = 10;
