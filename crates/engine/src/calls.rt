// The calls, as a host calls them. `answer` ends as three words: the refusal number, 0 where accepted; the first value, or the place that is named; the
// second value, or 0. That of the unfolding ends as four: the third value, or 0, is the last. The lent buffers end as those of the call do.
ghost use Rattle.std.specs.Prelude.{◌≡◌, ◌↔◌};
ghost use Rattle.job.specs.Job.{job_of};
ghost use Rattle.listing.specs.Listing.{listing_of};
ghost use Rattle.listing.specs.Numbering.{IsListing};
ghost use Rattle.listing.specs.ListCall.{list_verdict, list_answer, plates_end, cuts_end};
ghost use Rattle.plan.specs.PlanCall.{plan_verdict, plan_answer};
ghost use Rattle.plan.specs.PriceCall.{price_verdict, price_answer};
ghost use Rattle.plan.specs.Exactly.{PlanRight, PricesRight};
ghost use Rattle.layouts.specs.UnfoldCall.{unfold_verdict, unfold_answer, placements_end, offcuts_end};
ghost use Rattle.layouts.specs.FoldCall.{fold_verdict, fold_answer, counts_end};
ghost use Rattle.layouts.specs.Promises.{UnfoldPromise, FoldPromise, PricePromise};
ghost use Rattle.answers.specs.AnswerWords.{answer_words, four_words, WordsAccept, WhereAccepted, WhereUnfolded};

use answers::words::{accept, accept_four, refuse, refuse_four};
use fold_call::call::fold;
use job::head::head_of;
use listing_call::call::list;
use plan_test::call::test_plan;
use price_test::call::test_prices;
use unfold_call::call::unfold;

// The listing call: the values are the numbers of residual types and of cuts. Where it is accepted plates and cuts hold the one listing of the job.
#[unsafe(no_mangle)]
pub extern "C" fn saw_list(job: &[u16], plates: &mut [u16], cuts: &mut [u16], answer: &mut [u32; 3])
    ensures answer_after { answer.new ≡ answer_words (list_answer job.now plates.old cuts.old) }
    ensures plates_after { plates.new ≡ plates_end (list_verdict job.now plates.old cuts.old) job.now plates.old }
    ensures cuts_after { cuts.new ≡ cuts_end (list_verdict job.now plates.old cuts.old) job.now cuts.old }
    ensures where_accepted { WhereAccepted answer.new (λ _ _. IsListing (job_of job.now) (listing_of (job_of job.now))) }
{
    match list(job, plates, cuts) {
        Ok(listed) => {
            let head = head_of(job);
            let residuals = listed.plates.residuals(head.sizes);
            accept(answer, residuals as u32, listed.cuts.0 as u32)
        }
        Err(refused) => refuse(answer, refused.refusal.number(), refused.place),
    }
}

// The plan test: the values are the number of boards and their cost. It accepts exactly where all that `PlanRight` names is right.
#[unsafe(no_mangle)]
pub extern "C" fn saw_test_plan(
    job: &[u16],
    counts: &[u16],
    plates: &mut [u16],
    cuts: &mut [u16],
    answer: &mut [u32; 3],
)
    ensures answer_after { answer.new ≡ answer_words (plan_answer job.now counts.now plates.old cuts.old) }
    ensures plates_after { plates.new ≡ plates_end (plan_verdict job.now counts.now plates.old cuts.old) job.now plates.old }
    ensures cuts_after { cuts.new ≡ cuts_end (plan_verdict job.now counts.now plates.old cuts.old) job.now cuts.old }
    ensures variant { WordsAccept answer.new ↔ PlanRight job.now counts.now plates.old cuts.old }
{
    match test_plan(job, counts, plates, cuts) {
        Ok(opening) => accept(answer, opening.boards as u32, opening.cost),
        Err(refused) => refuse(answer, refused.refusal.number(), refused.place),
    }
}

// The price test: the values are the sum of price times demand and D. It accepts exactly where all that `PricesRight` names is right; then the values bound
// the cost of every set of layouts, by demand 3.
#[unsafe(no_mangle)]
pub extern "C" fn saw_test_prices(
    job: &[u16],
    prices: &[u16],
    plates: &mut [u16],
    cuts: &mut [u16],
    answer: &mut [u32; 3],
)
    ensures answer_after { answer.new ≡ answer_words (price_answer job.now prices.now plates.old cuts.old) }
    ensures plates_after { plates.new ≡ plates_end (price_verdict job.now prices.now plates.old cuts.old) job.now plates.old }
    ensures cuts_after { cuts.new ≡ cuts_end (price_verdict job.now prices.now plates.old cuts.old) job.now cuts.old }
    ensures variant { WordsAccept answer.new ↔ PricesRight job.now prices.now plates.old cuts.old }
    ensures where_accepted { WhereAccepted answer.new (PricePromise job.now) }
{
    match test_prices(job, prices, plates, cuts) {
        Ok(bound) => accept(answer, bound.sum, bound.d as u32),
        Err(refused) => refuse(answer, refused.refusal.number(), refused.place),
    }
}

// The unfolding call: the values are the numbers of boards, of pieces and of offcuts. `first` and `second` are the two set lengths, which the width and
// the height of a usable offcut reach. Where it is accepted the values, the placements and the offcuts are those of a set of layouts that is what demand 3
// says, and the unfolding found in the plate types' parts of the counts is the one found by reading all.
#[unsafe(no_mangle)]
pub extern "C" fn saw_unfold(
    job: &[u16],
    counts: &[u16],
    first: u16,
    second: u16,
    plates: &mut [u16],
    cuts: &mut [u16],
    placements: &mut [u16],
    offcuts: &mut [u16],
    answer: &mut [u32; 4],
)
    ensures answer_after { answer.new ≡ four_words (unfold_answer job.now first second counts.now plates.old cuts.old placements.old offcuts.old) }
    ensures plates_after { plates.new ≡ plates_end (unfold_verdict job.now first second counts.now plates.old cuts.old placements.old offcuts.old) job.now plates.old }
    ensures cuts_after { cuts.new ≡ cuts_end (unfold_verdict job.now first second counts.now plates.old cuts.old placements.old offcuts.old) job.now cuts.old }
    ensures placements_after { placements.new ≡ placements_end (unfold_verdict job.now first second counts.now plates.old cuts.old placements.old offcuts.old) job.now counts.now placements.old }
    ensures offcuts_after { offcuts.new ≡ offcuts_end (unfold_verdict job.now first second counts.now plates.old cuts.old placements.old offcuts.old) job.now first second counts.now offcuts.old }
    ensures where_unfolded { WhereUnfolded answer.new (UnfoldPromise job.now first second counts.now placements.new offcuts.new) }
{
    match unfold(
        job, first, second, counts, plates, cuts, placements, offcuts,
    ) {
        Ok(ran) => accept_four(
            answer,
            ran.boards as u32,
            ran.pieces as u32,
            ran.offcuts as u32,
        ),
        Err(refused) => refuse_four(answer, refused.refusal.number(), refused.place),
    }
}

// The folding call: the values are the number of boards and their cost. Where it is accepted the values, the layouts and the counts are what
// demand 3 says.
#[unsafe(no_mangle)]
pub extern "C" fn saw_fold(
    job: &[u16],
    layouts: &[u16],
    plates: &mut [u16],
    cuts: &mut [u16],
    counts: &mut [u16],
    answer: &mut [u32; 3],
)
    ensures answer_after { answer.new ≡ answer_words (fold_answer job.now layouts.now plates.old cuts.old counts.old) }
    ensures plates_after { plates.new ≡ plates_end (fold_verdict job.now layouts.now plates.old cuts.old counts.old) job.now plates.old }
    ensures cuts_after { cuts.new ≡ cuts_end (fold_verdict job.now layouts.now plates.old cuts.old counts.old) job.now cuts.old }
    ensures counts_after { counts.new ≡ counts_end (fold_verdict job.now layouts.now plates.old cuts.old counts.old) job.now layouts.now counts.old }
    ensures where_accepted { WhereAccepted answer.new (FoldPromise job.now layouts.now counts.new) }
{
    match fold(job, layouts, plates, cuts, counts) {
        Ok(boards) => accept(answer, boards.number as u32, boards.cost),
        Err(refused) => refuse(answer, refused.refusal.number(), refused.place),
    }
}
