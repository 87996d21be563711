// The lowest-numbered cut on a plate type that has a count left, and how its count falls.
ghost use Rattle.std.specs.Prelude.{◌≡◌, ◌-◌, ◌≤◌, ◌<◌, length, get_or};
ghost use Rattle.job.specs.Job.{Job};
ghost use Rattle.listing.specs.Listing.{Listing};
ghost use Rattle.listing.specs.Model.{Model};
ghost use Rattle.layouts.specs.Unfold.{search, spent};
ghost use Rattle.layouts.specs.OwnCuts.{first_left};
ghost use Rattle.unfold_waiting.specs.Begins.{Begins, PartIn};
ghost use Rattle.unfold_waiting.specs.Meaning.{left_means, found_means};

use job::counters::{CutNumber, PlateType};

// The place of the first count of a part that is left, from 0, if one is.
#[tactic(auto, using(crate::proofs::CodeSearch::left_end, crate::proofs::CodeSearch::left_here, crate::proofs::CodeSearch::left_next))]
fn first_left(part: &[u16]) -> Option<usize>
    ensures { left_means result ≡ first_left 0 part.now }
{
    for i in 0..part.len() {
        if part[i] != 0 {
            return Some(i);
        }
    }
    None
}

// The lowest-numbered cut on plate type j that has a count left: the part of the counts from where its cuts begin to where those of the next type begin is
// handed on, and no other count is read.
pub fn find_cut(counts: &[u16], begins: &[u16], j: PlateType) -> Option<CutNumber>
    requires { PartIn begins.now counts.now j.0 }
    ensures { (job : Job) (l : Listing) → Model job l → Begins l.cuts begins.now → found_means result ≡ search j.0 1 l.cuts counts.now }
{
    let at = j.0 as usize;
    let from = begins[at] as usize;
    let to = begins[at + 1] as usize;
    let Some(i) = first_left(&counts[from..to]) else {
        return None;
    };
    Some(CutNumber((from + i + 1) as u16))
}

// A cut is done once: its count falls by 1.
pub fn spend(counts: &mut [u16], k: CutNumber)
    requires { (1 ≤ k.0) × ((k.0 ≤ length counts.old) × (0 < get_or counts.old (k.0 - 1) 0)) }
    ensures { counts.new ≡ spent counts.old k.0 }
{
    let at = (k.0 - 1) as usize;
    counts[at] -= 1;
}
