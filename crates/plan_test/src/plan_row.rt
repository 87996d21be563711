// The plan row: 8 a count past the last cut, 10 the total, 11 an item type short, 12 a residual type overdrawn.
ghost use Rattle.std.specs.Prelude.{◌≡◌, not, List, suc, ◌≤◌, ltb, eqb, length, get_or, take, drop};
ghost use Rattle.job.specs.Sizes.{max_pieces, max_cuts};
ghost use Rattle.job.specs.Verdict.{◌then◌, lowest};
ghost use Rattle.job.specs.Refused.{row_verdict};
ghost use Rattle.job.specs.Buffers.{answer};
ghost use Rattle.job.specs.Job.{job_of};
ghost use Rattle.listing.specs.declared.plate.Plate.{Plate};
ghost use Rattle.listing.specs.Listing.{Listing};
ghost use Rattle.listing.specs.CutRead.{cuts_read};
ghost use Rattle.plan.specs.Plan.{total, counts_row, balance_row, plan_row};
ghost use Rattle.plan.specs.PlanCall.{boards_and_cost};
ghost use Rattle.plan_test.specs.PlanSays.{says_of};

use crate::listed_job::ListedJob;
use crate::opened::{Opening, boards_opened};
use crate::sums::sum_counts;
use job::counters::{BoardSizes, CutNumber, PlateTypes};
use job::demands::types_short;
use job::refused::{Refusal, Refused};
use job::sizes::{MAX_PIECES, MAX_PLATES, TYPE_SUMS};

// A word for each plate type, which are numbered from 0.
const PLATE_SUMS: usize = MAX_PLATES as usize;

// 8 for the lowest nonzero word past k cuts, naming the cut that it would be.
fn past_cuts(counts: &[u16], k: CutNumber) -> Result<(), Refused>
    ensures { row_verdict result ≡ lowest 8 (λ _ n. not (eqb n 0)) (suc k.0) (drop k.0 counts.now) }
{
    for c in k.0 as usize..counts.len() {
        if counts[c] != 0 {
            return Err(Refusal::NoSuchCut.at(c + 1));
        }
    }
    Ok(())
}

// The counts of k cuts, added up.
fn total(counts: &[u16], k: CutNumber) -> u32
    requires { (k.0 ≤ max_cuts) × (k.0 ≤ length counts.now) }
    ensures { result ≡ total (take k.0 counts.now) }
{
    let mut sum: u32 = 0;
    for &n in &counts[..k.0 as usize] {
        sum += n as u32;
    }
    sum
}

// 12 for the lowest residual type, of the m plate types those past the sizes, whose counts on it are more than the counts of cuts that leave it.
fn types_overdrawn(
    on: &[u16],
    left: &[u16],
    sizes: BoardSizes,
    m: PlateTypes,
) -> Result<(), Refused>
    requires { (m.0 ≤ length on.now) × (m.0 ≤ length left.now) }
    ensures { (ps : List Plate) → length ps ≡ m.0 → row_verdict result ≡ lowest 12 (λ j _. ltb (get_or left.now j 0) (get_or on.now j 0)) sizes.0 (drop sizes.0 ps) }
{
    for j in sizes.0 as usize..m.0 as usize {
        if left[j] < on[j] {
            return Err(Refusal::Overdrawn.at(j));
        }
    }
    Ok(())
}

// The plan row from 11 on, of counts that come to at most 4,000.
fn balance(listed: &ListedJob, counts: &[u16]) -> Result<Opening, Refused>
    requires k_in_bounds { (listed.now.last.0 ≤ length counts.now) × (total (take listed.now.last.0 counts.now) ≤ max_pieces) }
    ensures { (l : Listing) → l.sizes ≡ listed.now.job.head.sizes.0 → length l.plates ≡ listed.now.plates.0 → l.cuts ≡ cuts_read listed.now.last.0 listed.now.cuts.now → says_of result ≡ answer (balance_row (job_of listed.now.job.words.now) l counts.now) (boards_and_cost (job_of listed.now.job.words.now) l counts.now) }
{
    let job = listed.job.words;
    let head = listed.job.head;
    let mut items = [0u16; TYPE_SUMS];
    let mut on = [0u16; PLATE_SUMS];
    let mut left = [0u16; PLATE_SUMS];
    sum_counts(
        listed.cuts,
        counts,
        listed.last,
        &mut items,
        &mut on,
        &mut left,
    );
    types_short(job, head.types, &items)?;
    types_overdrawn(&on, &left, head.sizes, listed.plates)?;
    let opening = boards_opened(job, head.sizes, &on);
    Ok(opening)
}

// The plan row, whole, of the counts for a listed job.
pub fn plan_rows(listed: &ListedJob, counts: &[u16]) -> Result<Opening, Refused>
    requires k_in_bounds { listed.now.last.0 ≤ length counts.now }
    ensures { (l : Listing) → l.sizes ≡ listed.now.job.head.sizes.0 → length l.plates ≡ listed.now.plates.0 → l.cuts ≡ cuts_read listed.now.last.0 listed.now.cuts.now → says_of result ≡ answer (counts_row l counts.now then plan_row (job_of listed.now.job.words.now) l counts.now) (boards_and_cost (job_of listed.now.job.words.now) l counts.now) }
{
    past_cuts(counts, listed.last)?;
    if (MAX_PIECES as u32) < total(counts, listed.last) {
        return Err(Refusal::Total.at(0));
    }
    balance(listed, counts)
}
