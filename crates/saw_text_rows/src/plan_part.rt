// The plan row of a saw text: 8, 20 and 9 of its lines 3, then 10, 11 and 12 of the counts that they give.
ghost use Rattle.std.specs.Prelude.{◌≡◌, ◌≤◌, length};
ghost use Rattle.listing.specs.Listing.{Listing};
ghost use Rattle.listing.specs.CutRead.{cuts_read};
ghost use Rattle.saw_text_rows.specs.Tail.{PlanTold};

use job::refused::{Refusal, Refused};
use plan_test::listed_job::ListedJob;
use plan_test::opened::Opening;
use plan_test::plan_row::plan_rows;
use saw_text_body::plan_lines::PlanLines;

// The plan row, whole: 8 a line that names no cut, 20 a line that shows another plate, 9 a line whose cut is not after the last, each over all lines and
// naming the line; then the test of the counts.
pub fn plan_row_of_text(
    plan: PlanLines,
    listed: &ListedJob,
    counts: &[u16],
) -> Result<Opening, Refused>
    requires { listed.now.last.0 ≤ length counts.now }
    ensures { (l : Listing) → l.sizes ≡ listed.now.job.head.sizes.0 → length l.plates ≡ listed.now.plates.0 → l.cuts ≡ cuts_read listed.now.last.0 listed.now.cuts.now → PlanTold l listed.now.job.words.now counts.now plan result }
{
    if plan.unnamed != 0 {
        return Err(Refusal::NoSuchCut.at(plan.unnamed as usize));
    }
    if plan.misshown != 0 {
        return Err(Refusal::OtherPlate.at(plan.misshown as usize));
    }
    if plan.fallen != 0 {
        return Err(Refusal::CutOrder.at(plan.fallen as usize));
    }
    plan_rows(listed, counts)
}
