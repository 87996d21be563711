// The plan test, as a call over lent buffers.
ghost use Rattle.std.specs.Prelude.{◌≡◌, ◌↔◌, ◌≤◌, length};
ghost use Rattle.job.specs.Sizes.{plates_size, cuts_size, counts_size};
ghost use Rattle.job.specs.Verdict.{pass, ◌then◌};
ghost use Rattle.job.specs.Refused.{row_verdict};
ghost use Rattle.job.specs.Buffers.{answer, sized};
ghost use Rattle.job.specs.Job.{job_of, job_words, admission};
ghost use Rattle.listing.specs.Listing.{listing_of};
ghost use Rattle.listing.specs.ListCall.{plates_end, cuts_end};
ghost use Rattle.plan.specs.PlanCall.{plan_verdict, boards_and_cost, plan_answer};
ghost use Rattle.plan.specs.Exactly.{Accepts, PlanRight};
ghost use Rattle.plan_test.specs.PlanSays.{says_of, plan_tail};

use crate::listed_job::ListedJob;
use crate::opened::Opening;
use crate::plan_row::plan_rows;
use job::admit::check_job;
use job::job_read::JobRead;
use job::lent::counts_sized;
use job::refused::Refused;
use job::words::clear;
use listing_call::call::list_into;

// Lists an admitted job into buffers of full size, and tests a plan of at least 8,192 counts by it.
fn plan_into(
    job: &[u16],
    counts: &[u16],
    plates: &mut [u16],
    cuts: &mut [u16],
) -> Result<Opening, Refused>
    requires job_value { (job_words job.now then admission (job_of job.now)) ≡ pass }
    requires plates_size_in_bounds { (plates_size ≤ length plates.old) × ((cuts_size ≤ length cuts.old) × (counts_size ≤ length counts.now)) }
    ensures result_value { says_of result ≡ answer (plan_tail (job_of job.now) counts.now) (boards_and_cost (job_of job.now) (listing_of (job_of job.now)) counts.now) }
    ensures plates_after { plates.new ≡ plates_end (plan_tail (job_of job.now) counts.now) job.now plates.old }
    ensures cuts_after { cuts.new ≡ cuts_end (plan_tail (job_of job.now) counts.now) job.now cuts.old }
{
    let listed = list_into(job, plates, cuts)?;
    let listed_job = ListedJob {
        job: JobRead::new(job),
        cuts,
        plates: listed.plates,
        last: listed.cuts,
    };
    match plan_rows(&listed_job, counts) {
        Ok(opening) => Ok(opening),
        Err(row) => {
            clear(plates);
            clear(cuts);
            Err(row)
        }
    }
}

// The rows before the model: the job, and then the lent buffers.
fn plan_checks(job: &[u16], counts: &[u16], plates: &[u16], cuts: &[u16]) -> Result<(), Refused>
    ensures { row_verdict result ≡ ((job_words job.now then admission (job_of job.now)) then sized 1 plates_size plates.now then sized 2 cuts_size cuts.now then sized 3 counts_size counts.now) }
{
    check_job(job)?;
    counts_sized(plates, cuts, counts)
}

// The plan test: the number of boards that a plan opens and their cost, where it is accepted.
// Refused are 1 to 4 of the job; 5 a buffer shorter than its full size, plates 1, cuts 2, counts 3; 6 and 7 of the model, naming 0; 8 a nonzero count past
// the last cut, naming the cut that it would be; 10 a total above 4,000, naming 0; 11 a type short; 12 a residual type overdrawn, naming its plate number.
// Plates and cuts end as the listing; after 5 they are unchanged, after another refusal every word of them is 0. A plan is accepted exactly when all that
// `PlanRight` names is right.
pub fn test_plan(
    job: &[u16],
    counts: &[u16],
    plates: &mut [u16],
    cuts: &mut [u16],
) -> Result<Opening, Refused>
    ensures result_value { says_of result ≡ plan_answer job.now counts.now plates.old cuts.old }
    ensures plates_after { plates.new ≡ plates_end (plan_verdict job.now counts.now plates.old cuts.old) job.now plates.old }
    ensures cuts_after { cuts.new ≡ cuts_end (plan_verdict job.now counts.now plates.old cuts.old) job.now cuts.old }
    ensures variant { Accepts (says_of result) ↔ PlanRight job.now counts.now plates.old cuts.old }
{
    match plan_checks(job, counts, plates, cuts) {
        Err(refused) => {
            refused.end(plates);
            refused.end(cuts);
            Err(refused)
        }
        Ok(()) => plan_into(job, counts, plates, cuts),
    }
}
