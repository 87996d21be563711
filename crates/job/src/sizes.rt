// The limits of document 01, the words of each record, and the full sizes of the buffers; `job/Sizes` has the same as definitions.

// "board W by H, each 1 to 10,000": the greatest side of board and item, and the greatest x and y of a layout line.
pub const MAX_SIDE: u16 = 10000;

// The greatest width of the blade.
pub const MAX_BLADE: u16 = 20;

// The most board sizes.
pub const MAX_SIZES: u16 = 6;

// The greatest cost of a size.
pub const MAX_COST: u16 = 999;

// The most item types.
pub const MAX_TYPES: u16 = 40;

// The greatest demand, and the most that demands, counts or pieces come to in all.
pub const MAX_PIECES: u16 = 4000;

// The most offcuts, two for each counted cut of a plan.
pub const MAX_OFFCUTS: u16 = 8000;

// The most plate types, the sizes among them.
pub const MAX_PLATES: u16 = 2048;

// The most residual types, of a job with one size, and the greatest number of a plate type.
pub const MAX_RESIDUALS: u16 = MAX_PLATES - 1;

// The most cuts.
pub const MAX_CUTS: u16 = 8192;

// The greatest price, and the greatest D.
pub const MAX_PRICE: u16 = 9999;

// The words of a job before its sizes: stages, exact, t, n, b.
pub const HEAD_WORDS: usize = 5;

// Where stages, exact, the number of sizes t, that of item types n and the blade's b stand among them.
pub const STAGES: usize = 0;

pub const EXACT: usize = 1;

pub const SIZES: usize = 2;

pub const TYPES: usize = 3;

pub const BLADE: usize = 4;

// The words of a size: W, H, cost.
pub const SIZE_WORDS: usize = 3;

// The words of an item type: width, height, demand, leave.
pub const ITEM_WORDS: usize = 4;

// The words of a plate type: width, height, stage, cost.
pub const PLATE_WORDS: usize = 4;

// The words of a cut: plate, item, top, right.
pub const CUT_WORDS: usize = 4;

// The words of a placement and of a layout line: board, size, strip, stack, place, type, x, y, turn.
pub const PLACEMENT_WORDS: usize = 9;

// The words of an offcut: board, x, y, width, height, usable.
pub const OFFCUT_WORDS: usize = 6;

// The words of the longest job.
pub const JOB_SIZE: usize = HEAD_WORDS
    + SIZE_WORDS * (MAX_SIZES as usize)
    + ITEM_WORDS * (MAX_TYPES as usize);

// The full size of lent plates.
pub const PLATES_SIZE: usize = PLATE_WORDS * (MAX_PLATES as usize);

// The full size of lent cuts.
pub const CUTS_SIZE: usize = CUT_WORDS * (MAX_CUTS as usize);

// The full size of counts, lent or passed in.
pub const COUNTS_SIZE: usize = MAX_CUTS as usize;

// The full size of lent placements.
pub const PLACEMENTS_SIZE: usize = PLACEMENT_WORDS * (MAX_PIECES as usize);

// The full size of lent offcuts.
pub const OFFCUTS_SIZE: usize = OFFCUT_WORDS * (MAX_OFFCUTS as usize);

// The words of the longest list of prices: D, one for each item type, one for each residual type.
pub const PRICES_SIZE: usize = MAX_TYPES as usize + MAX_PLATES as usize;

// A word for each item type, which are numbered from 1.
pub const TYPE_SUMS: usize = MAX_TYPES as usize + 1;
