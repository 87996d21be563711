// The counts of a plan, added up by item type, by plate type cut and by residual type left, in one pass over the cuts.
ghost use Rattle.std.specs.Prelude.{◌≡◌, List, [], ◌∷◌, ◌++◌, ℕ, ◌*◌, ◌≤◌, ◌<◌, length, get_or, take};
ghost use Rattle.job.specs.Sizes.{max_types, max_pieces, max_plates, words_of_cut};
ghost use Rattle.job.specs.Job.{type_of};
ghost use Rattle.listing.specs.Listing.{Cut};
ghost use Rattle.plan.specs.Plan.{total};
ghost use Rattle.listing.specs.CutRead.{cut_in, cuts_read, Sound};
ghost use Rattle.plan_test.specs.Sums.{added, Fit, Sums, SumRoom};

use job::counters::CutNumber;
use listing::cut::{CutRecord, cut_at};

// Adds n to the word at a place.
fn add_at(s: &mut [u16], place: usize, n: u16)
    requires { Fit s.old place n }
    ensures { s.new ≡ added s.old place n }
{
    s[place] += n;
}

// Adds the count n of the next cut to the sums of its item type, in either turn, of its plate type and of the residual types that it leaves.
fn add_cut(cut: CutRecord, n: u16, items: &mut [u16], on: &mut [u16], left: &mut [u16])
    requires fit { Fit items.old (type_of cut.item.0) n }
    requires fit_2 { Fit on.old cut.plate.0 n }
    requires fit_3 { (Fit left.old cut.top.0 n) × (Fit left.old cut.right.0 n) }
    ensures { (cs : List Cut) (ns : List ℕ) → length cs < length ns → get_or ns (length cs) 0 ≡ n → Sums cs ns items.old on.old left.old → Sums (cs ++ cut_in cut ∷ []) ns items.new on.new left.new }
{
    let top = cut.top.0 as usize;
    let right = cut.right.0 as usize;
    add_at(items, cut.item.0 as usize / 2, n);
    add_at(on, cut.plate.0 as usize, n);
    add_at(left, top, n);
    if right != top {
        add_at(left, right, n);
    }
}

// Adds up the counts of k cuts: by item type, by the plate type that they are on, and by the residual types that they leave.
pub fn sum_counts(
    cuts: &[u16],
    counts: &[u16],
    k: CutNumber,
    items: &mut [u16],
    on: &mut [u16],
    left: &mut [u16],
)
    requires k_in_bounds { (words_of_cut * k.0 ≤ length cuts.now) × (Sound max_plates max_types (cuts_read k.0 cuts.now)) }
    requires k_in_bounds_2 { (k.0 ≤ length counts.now) × (total (take k.0 counts.now) ≤ max_pieces) }
    requires sum_room { SumRoom items.old on.old left.old }
    requires sums { Sums [] counts.now items.old on.old left.old }
    ensures { Sums (cuts_read k.0 cuts.now) counts.now items.new on.new left.new }
{
    for c in 0..k.0 {
        let cut = cut_at(cuts, CutNumber(c + 1));
        add_cut(cut, counts[c as usize], items, on, left);
    }
}
