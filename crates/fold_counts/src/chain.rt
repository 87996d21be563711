// A run of items in folding's order, each cut from what the cut before it left: a strip in two stages, a stack in three.
ghost use Rattle.std.specs.Prelude.{List, [], ◌∷◌, ◌++◌, ℕ, ◌*◌, ◌≤◌, length};
ghost use Rattle.job.specs.Sizes.{words_of_cut};
ghost use Rattle.listing.specs.Listing.{Listing};
ghost use Rattle.fold_counts.specs.Lent.{CutsLent, Counting};
ghost use Rattle.fold_counts.specs.Chain.{Chained};

use crate::count::count_cut;
use job::counters::{CutNumber, ItemPosition, PlateType};

// The plate type that the next item is cut from, and what else the first item's cut left, once there is one.
#[derive(Clone, Copy, Debug, PartialEq, Eq)]
pub struct Chain {
    pub plate: PlateType,
    pub rest: Option<PlateType>,
}

impl Chain {
    // The next item of the run.
    pub fn step(
        self,
        cuts: &[u16],
        k: CutNumber,
        i: ItemPosition,
        three: bool,
        counts: &mut [u16],
    ) -> Chain
        requires k_in_bounds { words_of_cut * k.0 ≤ length cuts.now }
        requires counting { Counting counts.old k.0 1 }
        ensures { (l : Listing) → CutsLent l cuts.now k.0 → (j : ℕ) (ks xs : List ℕ) → Chained l three j k.0 ks xs self counts.old → Chained l three j k.0 ks (xs ++ i.0 ∷ []) result counts.new }
    {
        let left = count_cut(cuts, k, self.plate, i, three, counts);
        Chain {
            plate: left.own,
            rest: self.rest.or(Some(left.other)),
        }
    }
}
