// One cut, found by its pair and counted.
ghost use Rattle.std.specs.Prelude.{List, [], ◌∷◌, ◌++◌, ℕ, ◌*◌, ◌≤◌, length};
ghost use Rattle.job.specs.Sizes.{words_of_cut};
ghost use Rattle.job.specs.Lists.{tally};
ghost use Rattle.listing.specs.Listing.{Listing, cut_at};
ghost use Rattle.listing.specs.Holds.{Holds};
ghost use Rattle.layouts.specs.Fold.{cut_of};
ghost use Rattle.fold_counts.specs.Lent.{CutsLent, Counting};
ghost use Rattle.fold_counts.specs.Chain.{LeftBy};

use job::counters::{CutNumber, ItemPosition, PlateType};
use listing::cut::cut_at;
use listing_find::search::find_cut;

// What a cut leaves: the plate type that the next item of its run is cut from, and the other one.
#[derive(Clone, Copy, Debug, PartialEq, Eq)]
pub struct Left {
    pub own: PlateType,
    pub other: PlateType,
}

// Counts the cut of an item in position i on plate type j, and gives what it leaves; where there is no such cut nothing is counted and nothing left.
// The next item of a stack, in three stages, is cut from the top; the next item of a strip, in two, from the right.
pub fn count_cut(
    cuts: &[u16],
    k: CutNumber,
    j: PlateType,
    i: ItemPosition,
    three: bool,
    counts: &mut [u16],
) -> Left
    requires k_in_bounds { words_of_cut * k.0 ≤ length cuts.now }
    requires counting { Counting counts.old k.0 1 }
    ensures left_by { (l : Listing) → CutsLent l cuts.now k.0 → LeftBy three (cut_at l (cut_of l j.0 i.0)) result }
    ensures holds { (l : Listing) → CutsLent l cuts.now k.0 → (ks : List ℕ) → Holds counts.old (tally k.0 1 ks) → Holds counts.new (tally k.0 1 (ks ++ cut_of l j.0 i.0 ∷ [])) }
{
    let Some(c) = find_cut(cuts, k, j, i) else {
        return Left {
            own: PlateType(0),
            other: PlateType(0),
        };
    };
    let at = c.0 as usize - 1;
    counts[at] = counts[at] + 1;
    let cut = cut_at(cuts, c);
    if three {
        return Left {
            own: cut.top,
            other: cut.right,
        };
    }
    Left {
        own: cut.right,
        other: cut.top,
    }
}
