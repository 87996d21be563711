// The number of the cut of a plate type and an item in a position: cuts rise with their pairs, so it is found by halving.
ghost use Rattle.std.specs.Prelude.{◌≡◌, ◌&&◌, ◌-◌, ◌*◌, ◌≤◌, length};
ghost use Rattle.job.specs.Sizes.{words_of_cut};
ghost use Rattle.listing.specs.Listing.{Listing};
ghost use Rattle.listing.specs.CutRead.{cut_read, cuts_read};
ghost use Rattle.plan.specs.Plan.{on_plate, of_position};
ghost use Rattle.layouts.specs.Fold.{cut_of};
ghost use Rattle.listing_find.specs.Rising.{Rising, Narrowed, earlier};
ghost use Rattle.listing_find.specs.Found.{cut_found, Among};

use job::counters::{CutNumber, ItemPosition, PlateType};
use listing::cut::cut_at;

// Whether a cut comes before the pair of plate type j and position i.
#[tactic(auto, unfolding(crate::specs::Rising::earlier))]
fn is_earlier(cuts: &[u16], c: CutNumber, j: PlateType, i: ItemPosition) -> bool
    requires { (1 ≤ c.0) × (words_of_cut * c.0 ≤ length cuts.now) }
    ensures { result ≡ earlier j.0 i.0 (cut_read cuts.now (c.0 - 1)) }
{
    let cut = cut_at(cuts, c);
    (cut.plate, cut.item) < (j, i)
}

// Whether a cut is that of plate type j and position i.
#[tactic(auto, unfolding(plan::specs::Plan::on_plate, plan::specs::Plan::of_position))]
fn is_pair(cuts: &[u16], c: CutNumber, j: PlateType, i: ItemPosition) -> bool
    requires { (1 ≤ c.0) × (words_of_cut * c.0 ≤ length cuts.now) }
    ensures { result ≡ (on_plate j.0 (cut_read cuts.now (c.0 - 1)) && of_position i.0 (cut_read cuts.now (c.0 - 1))) }
{
    let cut = cut_at(cuts, c);
    cut.plate == j && cut.item == i
}

// The number of the cut of plate type j and position i among k cuts in rising order, where the first `from` cuts come before the pair, and those behind
// the first `to` do not: both say how many cuts come before one, from 0.
fn find_between(
    cuts: &[u16],
    k: CutNumber,
    from: u16,
    to: u16,
    j: PlateType,
    i: ItemPosition,
) -> Option<CutNumber>
    requires k_in_bounds { (words_of_cut * k.0 ≤ length cuts.now) × ((from ≤ to) × (to ≤ k.0)) }
    requires narrowed { Rising (cuts_read k.0 cuts.now) → Narrowed (cuts_read k.0 cuts.now) j.0 i.0 from to }
    ensures result_value { (l : Listing) → l.cuts ≡ cuts_read k.0 cuts.now → Rising l.cuts → cut_found result ≡ cut_of l j.0 i.0 }
    ensures among { Among k.0 result }
{
    let mut low = from;
    let mut high = to;
    while low < high {
        let middle = low + (high - low) / 2;
        if is_earlier(cuts, CutNumber(middle + 1), j, i) {
            low = middle + 1;
        } else {
            high = middle;
        }
    }
    if low < k.0 && is_pair(cuts, CutNumber(low + 1), j, i) {
        return Some(CutNumber(low + 1));
    }
    None
}

// The number of the cut of plate type j and position i among k cuts in rising order.
pub fn find_cut(cuts: &[u16], k: CutNumber, j: PlateType, i: ItemPosition) -> Option<CutNumber>
    requires { words_of_cut * k.0 ≤ length cuts.now }
    ensures result_value { (l : Listing) → l.cuts ≡ cuts_read k.0 cuts.now → Rising l.cuts → cut_found result ≡ cut_of l j.0 i.0 }
    ensures among { Among k.0 result }
{
    find_between(cuts, k, 0, k.0, j, i)
}

// How many cuts come before a cut, and none before no cut.
fn cuts_before(c: CutNumber) -> u16
    ensures { result ≡ c.0 - 1 }
{
    c.0.saturating_sub(1)
}

// The same, found in fewer steps where it is not far behind the cut `near`: the cuts from there on are tried at distances that double.
pub fn find_cut_near(
    cuts: &[u16],
    k: CutNumber,
    near: CutNumber,
    j: PlateType,
    i: ItemPosition,
) -> Option<CutNumber>
    requires { words_of_cut * k.0 ≤ length cuts.now }
    ensures result_value { (l : Listing) → l.cuts ≡ cuts_read k.0 cuts.now → Rising l.cuts → cut_found result ≡ cut_of l j.0 i.0 }
    ensures among { Among k.0 result }
{
    let end = k.0;
    let mut low: u16 = 0;
    let mut probe = cuts_before(near);
    let mut distance: u16 = 1;
    while probe < end {
        if !is_earlier(cuts, CutNumber(probe + 1), j, i) {
            return find_between(cuts, k, low, probe, j, i);
        }
        low = probe + 1;
        if end - probe <= distance {
            break;
        }
        probe += distance;
        distance *= 2;
    }
    find_between(cuts, k, low, end, j, i)
}
