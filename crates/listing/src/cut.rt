// The record of a cut, read from the words of a lent buffer.
ghost use Rattle.std.specs.Prelude.{◌≡◌, ◌*◌, ◌-◌, ◌≤◌, length};
ghost use Rattle.job.specs.Sizes.{words_of_cut};
ghost use Rattle.listing.specs.CutRead.{cut_in, cut_read};

use job::counters::{CutNumber, ItemPosition, PlateType};
use job::sizes::CUT_WORDS;

// The plate type of a cut, its item in its position, and its top and its right, 0 if not kept.
// 0 in place of an `Option`: the C interface, for a number stands so in the words of a cut.
#[derive(Clone, Copy, Debug, PartialEq, Eq)]
pub struct CutRecord {
    pub plate: PlateType,
    pub item: ItemPosition,
    pub top: PlateType,
    pub right: PlateType,
}

// The cut of a number.
pub fn cut_at(cuts: &[u16], c: CutNumber) -> CutRecord
    requires { (1 ≤ c.0) × (words_of_cut * c.0 ≤ length cuts.now) }
    ensures { cut_in result ≡ cut_read cuts.now (c.0 - 1) }
{
    let at = CUT_WORDS * (c.0 as usize - 1);
    CutRecord {
        plate: PlateType(cuts[at]),
        item: ItemPosition(cuts[at + 1]),
        top: PlateType(cuts[at + 2]),
        right: PlateType(cuts[at + 3]),
    }
}
