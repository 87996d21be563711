// The bytes of a line of each kind, byte 10 included; `texts/Widths` has the same as definitions.
use columns::widths::GROUP;

// Kind 1: the kind, stages, exact, t, n, b.
pub const JOB_LINE: usize = GROUP * 6 + 1;

// Kind 10: the kind, size, W, H, cost.
pub const SIZE_LINE: usize = GROUP * 5 + 1;

// Kind 2: the kind, type, width, height, demand, leave.
pub const TYPE_LINE: usize = GROUP * 6 + 1;

// Kind 3: the kind, plate, item, count, the plate's width, height and stage, turn.
pub const PLAN_LINE: usize = GROUP * 8 + 1;

// Kind 4: the kind, D, n, m.
pub const PRICES_LINE: usize = GROUP * 4 + 1;

// Kinds 5 and 6: the kind, type or plate type, price.
pub const PRICE_LINE: usize = GROUP * 3 + 1;

// Kind 7: the kind, board, size, strip, stack, place, type, x, y, turn.
pub const PLACEMENT_LINE: usize = GROUP * 10 + 1;

// Kind 8: the kind, cost, sum, D, cheapest.
pub const SUMMARY_LINE: usize = GROUP * 5 + 1;

// Kind 9: the kind, refusal, place.
pub const REFUSAL_LINE: usize = GROUP * 3 + 1;

// No line is longer than one of kind 7.
pub const LONGEST_LINE: usize = PLACEMENT_LINE;

// The most lines of a text.
pub const MAX_LINES: u32 = 99_999;

// The bytes of the longest saw text: line 1, one line 10, one line 2, and a line 3 for each line after them.
pub const LONGEST_SAW_TEXT: usize = JOB_LINE
    + SIZE_LINE
    + TYPE_LINE
    + PLAN_LINE * (MAX_LINES as usize - 3);

// The bytes of the longest fold text: line 1, one line 10, one line 2, and a line 7 for each line after them.
pub const LONGEST_FOLD_TEXT: usize = JOB_LINE
    + SIZE_LINE
    + TYPE_LINE
    + PLACEMENT_LINE * (MAX_LINES as usize - 3);

// A place that is written on line 9 is below this.
pub const PLACE_LIMIT: usize = 4_294_967_296;
