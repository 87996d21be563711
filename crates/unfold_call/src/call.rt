// The unfolding call.
ghost use Rattle.std.specs.Prelude.{◌≡◌, [], ◌≤◌, length, Ok};
ghost use Rattle.job.specs.Sizes.{plates_size, cuts_size, counts_size, placements_size, offcuts_size};
ghost use Rattle.job.specs.Verdict.{pass, ◌then◌};
ghost use Rattle.job.specs.Buffers.{given, sized};
ghost use Rattle.job.specs.Job.{job_of, job_words, admission};
ghost use Rattle.job.specs.Refused.{row_verdict};
ghost use Rattle.listing.specs.Holds.{Holds};
ghost use Rattle.listing.specs.ListCall.{plates_end, cuts_end};
ghost use Rattle.plan.specs.Plan.{counts_row, plan_row};
ghost use Rattle.plan_test.specs.PlanSays.{plan_tail};
ghost use Rattle.layouts.specs.Placement.{placement_words};
ghost use Rattle.layouts.specs.Offcuts.{offcut_words};
ghost use Rattle.layouts.specs.UnfoldCall.{lengths_row, unfold_verdict, unfolding_of, offcuts_from, unfold_answer, placements_end, offcuts_end};
ghost use Rattle.layouts.specs.Demand3.{J, L};
ghost use Rattle.layouts.specs.Promises.{UnfoldPromise};
ghost use Rattle.unfold_step.specs.Ready.{ModelLent};
ghost use Rattle.unfold_call.specs.UnfoldSays.{says_of, results, OnSuccess, Ended};

use job::admit::{admit, job_words, within};
use job::counters::CutNumber;
use job::head::head_of;
use job::job_read::JobRead;
use job::lent::offcuts_sized;
use job::refused::{Refusal, Refused};
use job::sizes::{COUNTS_SIZE, MAX_SIDE};
use job::words::clear;
use listing_call::call::list_into;
use plan_test::listed_job::ListedJob;
use plan_test::plan_row::plan_rows;
use unfold_offcut::Lengths;
use unfold_run::run::{Ran, run};
use unfold_waiting::begins::{BEGINS_SIZE, cut_begins};
use unfold_waiting::counts::copy_counts;

// Unfolds an accepted plan over a listing of k cuts; the counts are spent from a copy, and where the cuts of each plate type begin is written once,
// before the run. The offcuts are listed where the list is of full size. What it gives are the boards used, the pieces placed and the offcuts left over.
// What it reads stands in its arguments one by one, and not in a struct: what may not change (docs/DECISIONS.md 72 names `unfold_plan`).
pub fn unfold_plan(
    job: &[u16],
    counts: &[u16],
    plates: &[u16],
    cuts: &[u16],
    k: CutNumber,
    lengths: Lengths,
    placements: &mut [u16],
    offcuts: &mut [u16],
) -> Ran
    requires model_lent { ModelLent job.now plates.now cuts.now k.0 }
    requires counts_size_in_bounds { (counts_size ≤ length counts.now) × ((counts_row (L job.now) counts.now then plan_row (J job.now) (L job.now) counts.now) ≡ pass) }
    requires holds { (Holds placements.old []) × ((placements_size ≤ length placements.old) × Holds offcuts.old []) }
    ensures result_value { says_of (Ok result) ≡ given (results job.now counts.now) }
    ensures holds_2 { Holds placements.new (placement_words (unfolding_of job.now counts.now).placements) }
    ensures holds_3 { offcuts_size ≤ length offcuts.old → Holds offcuts.new (offcut_words lengths.first lengths.second (offcuts_from job.now counts.now)) }
{
    let mut left = [0u16; COUNTS_SIZE];
    copy_counts(counts, &mut left);
    let mut begins = [0u16; BEGINS_SIZE];
    cut_begins(cuts, k, &mut begins);
    let head = head_of(job);
    let ran = run(
        job, head.blade, head.sizes, plates, cuts, &begins, lengths, &mut left, placements, offcuts,
    );
    ran
}

// Lists an admitted job into buffers of full size, tests the plan by its listing, and unfolds it.
fn unfold_into(
    job: &[u16],
    lengths: Lengths,
    counts: &[u16],
    plates: &mut [u16],
    cuts: &mut [u16],
    placements: &mut [u16],
    offcuts: &mut [u16],
) -> Result<Ran, Refused>
    requires job_value { (job_words job.now then admission (job_of job.now)) ≡ pass }
    requires plates_size_in_bounds { (plates_size ≤ length plates.old) × ((cuts_size ≤ length cuts.old) × ((counts_size ≤ length counts.now) × ((placements_size ≤ length placements.old) × (offcuts_size ≤ length offcuts.old)))) }
    ensures { Ended (plan_tail (job_of job.now) counts.now) job.now lengths.first lengths.second counts.now plates.old cuts.old placements.old offcuts.old (says_of result) plates.new cuts.new placements.new offcuts.new }
{
    clear(placements);
    clear(offcuts);
    let listed = list_into(job, plates, cuts)?;
    let listed_job = ListedJob {
        job: JobRead::new(job),
        cuts,
        plates: listed.plates,
        last: listed.cuts,
    };
    match plan_rows(&listed_job, counts) {
        Err(row) => {
            clear(plates);
            clear(cuts);
            Err(row)
        }
        Ok(_) => Ok(unfold_plan(
            job,
            counts,
            plates,
            cuts,
            listed.cuts,
            lengths,
            placements,
            offcuts,
        )),
    }
}

// The two set lengths are 1 to 10,000; else 2, naming 0.
#[tactic(auto, unfolding(layouts::specs::UnfoldCall::lengths_row, layouts::specs::UnfoldCall::lengths_right))]
fn lengths_row(lengths: Lengths) -> Result<(), Refused>
    ensures { row_verdict result ≡ lengths_row lengths.first lengths.second }
{
    if !within(1, MAX_SIDE, lengths.first) || !within(1, MAX_SIDE, lengths.second) {
        return Err(Refusal::Limits.at(0));
    }
    Ok(())
}

// The rows before the model: the job's words, the two lengths, the job row, and then the lent buffers.
fn unfold_checks(
    job: &[u16],
    lengths: Lengths,
    counts: &[u16],
    plates: &[u16],
    cuts: &[u16],
    placements: &[u16],
    offcuts: &[u16],
) -> Result<(), Refused>
    ensures { row_verdict result ≡ (job_words job.now then lengths_row lengths.first lengths.second then admission (job_of job.now) then sized 1 plates_size plates.now then sized 2 cuts_size cuts.now then sized 3 counts_size counts.now then sized 4 placements_size placements.now then sized 5 offcuts_size offcuts.now) }
{
    job_words(job)?;
    lengths_row(lengths)?;
    admit(job)?;
    offcuts_sized(plates, cuts, counts, placements, offcuts)
}

// The unfolding call: the placements of an accepted plan, board after board, the sizes in rising number, the offcuts in the order in which pieces are left
// over, and the numbers of boards, pieces and offcuts. An offcut is usable if its width reaches the first and its height the second of two lengths.
// Refused are 1 and 2 of the job's words; 2 a length outside 1 to 10,000, naming 0; 3 and 4 of the job; 5 a buffer shorter than its full size, plates 1,
// cuts 2, counts 3, placements 4, offcuts 5; 6 and 7 of the model, naming 0; 8 a nonzero count past the last cut, naming the cut that it would be; 10 a
// total above 4,000, naming 0; 11 a type short; 12 a residual type overdrawn. Plates and cuts end as the listing, placements as the nine words of each
// piece, offcuts as the six words of each piece left over: board, x, y, width, height, and 1 if it is usable, else 0. After 5 all four are unchanged, after
// another refusal every word of them is 0, after success the unused words are 0. On success the placements are the lines of a set of layouts, this set
// and the offcuts are what demand 3 says of an accepted plan, and the unfolding found in the plate types' parts is the one found by reading all.
pub fn unfold(
    job: &[u16],
    first: u16,
    second: u16,
    counts: &[u16],
    plates: &mut [u16],
    cuts: &mut [u16],
    placements: &mut [u16],
    offcuts: &mut [u16],
) -> Result<Ran, Refused>
    ensures result_value { says_of result ≡ unfold_answer job.now first second counts.now plates.old cuts.old placements.old offcuts.old }
    ensures plates_after { plates.new ≡ plates_end (unfold_verdict job.now first second counts.now plates.old cuts.old placements.old offcuts.old) job.now plates.old }
    ensures cuts_after { cuts.new ≡ cuts_end (unfold_verdict job.now first second counts.now plates.old cuts.old placements.old offcuts.old) job.now cuts.old }
    ensures placements_after { placements.new ≡ placements_end (unfold_verdict job.now first second counts.now plates.old cuts.old placements.old offcuts.old) job.now counts.now placements.old }
    ensures offcuts_after { offcuts.new ≡ offcuts_end (unfold_verdict job.now first second counts.now plates.old cuts.old placements.old offcuts.old) job.now first second counts.now offcuts.old }
    ensures on_success { OnSuccess result (UnfoldPromise job.now first second counts.now placements.new offcuts.new) }
{
    let lengths = Lengths { first, second };
    match unfold_checks(job, lengths, counts, plates, cuts, placements, offcuts) {
        Err(refused) => {
            refused.end(plates);
            refused.end(cuts);
            refused.end(placements);
            refused.end(offcuts);
            Err(refused)
        }
        Ok(()) => unfold_into(job, lengths, counts, plates, cuts, placements, offcuts),
    }
}
