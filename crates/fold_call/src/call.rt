// The folding call.
ghost use Rattle.std.specs.Prelude.{◌≡◌, ◌≤◌, length};
ghost use Rattle.job.specs.Sizes.{plates_size, cuts_size, counts_size};
ghost use Rattle.job.specs.Verdict.{pass, ◌then◌};
ghost use Rattle.job.specs.Buffers.{filled, sized};
ghost use Rattle.job.specs.Job.{job_of, job_words, admission};
ghost use Rattle.job.specs.Refused.{row_verdict};
ghost use Rattle.listing.specs.Listing.{listing_of};
ghost use Rattle.listing.specs.ListCall.{plates_end, cuts_end};
ghost use Rattle.layouts.specs.Placement.{set_cost};
ghost use Rattle.layouts.specs.Lines.{rows_of, layout_words, set_of};
ghost use Rattle.layouts.specs.LayoutsRow.{layouts_row};
ghost use Rattle.layouts.specs.Fold.{folded};
ghost use Rattle.layouts.specs.FoldCall.{fold_verdict, fold_answer, counts_end};
ghost use Rattle.layouts.specs.Promises.{FoldPromise};
ghost use Rattle.fold_counts.specs.Lent.{CutsLent};
ghost use Rattle.fold_call.specs.FoldSays.{says_of, fold_tail, Ended, OnSuccess};

use crate::boards::{Boards, count_boards};
use fold_counts::fold::fold_into;
use job::counters::CutNumber;
use job::head::head_of;
use job::lent::counts_sized;
use job::refused::Refused;
use job::sizes::PLACEMENT_WORDS;
use job::words::clear;
use layouts_row::front::layout_checks;
use layouts_row::rows::layouts_row;
use layouts_strips::lines::Lines;
use listing_call::call::list_into;

// Folds layout lines that have passed the layouts row, over the k cuts of the job's listing; gives the number of boards and what they cost.
fn fold_set(job: &[u16], layouts: &[u16], cuts: &[u16], k: CutNumber, counts: &mut [u16]) -> Boards
    requires job_value { (job_words job.now ≡ pass) × ((layout_words (job_of job.now) layouts.now ≡ pass) × (layouts_row 1 (job_of job.now) (rows_of layouts.now) ≡ pass)) }
    requires cuts_lent { (CutsLent (listing_of (job_of job.now)) cuts.now k.0) × (k.0 ≤ length counts.old) }
    ensures number_value { (result.number ≡ length (set_of layouts.now)) × (result.cost ≡ set_cost (job_of job.now) (set_of layouts.now)) }
    ensures counts_after { counts.new ≡ filled (length counts.old) (folded (job_of job.now) (listing_of (job_of job.now)) (set_of layouts.now)) }
{
    let number = layouts.len() / PLACEMENT_WORDS;
    let head = head_of(job);
    fold_into(job, layouts, number, head.mode, cuts, k, counts);
    let lines = Lines {
        job,
        layouts,
        number,
    };
    count_boards(&lines)
}

// Lists an admitted job into buffers of full size, checks the layouts by the layouts row, and folds them.
fn fold_listed(
    job: &[u16],
    layouts: &[u16],
    plates: &mut [u16],
    cuts: &mut [u16],
    counts: &mut [u16],
) -> Result<Boards, Refused>
    requires job_value { (job_words job.now then layout_words (job_of job.now) layouts.now then admission (job_of job.now)) ≡ pass }
    requires plates_size_in_bounds { (plates_size ≤ length plates.old) × ((cuts_size ≤ length cuts.old) × (counts_size ≤ length counts.old)) }
    ensures { Ended (fold_tail (job_of job.now) layouts.now) job.now layouts.now plates.old cuts.old counts.old (says_of result) plates.new cuts.new counts.new }
{
    match list_into(job, plates, cuts) {
        Err(refused) => {
            clear(counts);
            Err(refused)
        }
        Ok(listed) => match layouts_row(job, layouts, 1) {
            Err(row) => {
                clear(plates);
                clear(cuts);
                clear(counts);
                Err(row)
            }
            Ok(()) => Ok(fold_set(job, layouts, cuts, listed.cuts, counts)),
        },
    }
}

// The rows before the model: the words of job and layouts, the job, and then the lent buffers.
fn fold_checks(
    job: &[u16],
    layouts: &[u16],
    plates: &[u16],
    cuts: &[u16],
    counts: &[u16],
) -> Result<(), Refused>
    ensures { row_verdict result ≡ ((job_words job.now then layout_words (job_of job.now) layouts.now then admission (job_of job.now)) then sized 1 plates_size plates.now then sized 2 cuts_size cuts.now then sized 3 counts_size counts.now) }
{
    layout_checks(job, layouts)?;
    counts_sized(plates, cuts, counts)
}

// The folding call: the counts of the cuts of a set of layouts in folding's order, the number of its boards and what they cost. Refused are 1 and 2 of
// the job's words; 1 a layout line cut short, 2 one with a value outside its limits, and then 19 one that turns a square type or one without leave,
// naming the line; 3 and 4 of the job; 5 a buffer shorter than its full size, plates 1, cuts 2, counts 3; 6 and 7 of the model, naming 0; then the
// layouts row: 10 more than 4,000 lines, naming 0; 15 a line that is not the next in turn, or whose size is not that of its board's first line; 16 a
// strip that breaks the stage rule and 17 one that passes its board, naming its first line; 18 a line whose x or y is wrong, where neighbours lie just a
// blade's width apart; 11 a type that lies in the lines, in both turns together, less often than demanded. Plates and cuts end as the listing, counts as
// the plan; after 5 all three are unchanged, after another refusal every word of them is 0, after success the unused words are 0. On success the layouts
// are the lines of a set that demand 3 names, and the counts are an accepted plan that opens as many boards of each size as the set has.
pub fn fold(
    job: &[u16],
    layouts: &[u16],
    plates: &mut [u16],
    cuts: &mut [u16],
    counts: &mut [u16],
) -> Result<Boards, Refused>
    ensures result_value { says_of result ≡ fold_answer job.now layouts.now plates.old cuts.old counts.old }
    ensures plates_after { plates.new ≡ plates_end (fold_verdict job.now layouts.now plates.old cuts.old counts.old) job.now plates.old }
    ensures cuts_after { cuts.new ≡ cuts_end (fold_verdict job.now layouts.now plates.old cuts.old counts.old) job.now cuts.old }
    ensures counts_after { counts.new ≡ counts_end (fold_verdict job.now layouts.now plates.old cuts.old counts.old) job.now layouts.now counts.old }
    ensures on_success { OnSuccess result (FoldPromise job.now layouts.now counts.new) }
{
    match fold_checks(job, layouts, plates, cuts, counts) {
        Err(refused) => {
            refused.end(plates);
            refused.end(cuts);
            refused.end(counts);
            Err(refused)
        }
        Ok(()) => fold_listed(job, layouts, plates, cuts, counts),
    }
}
