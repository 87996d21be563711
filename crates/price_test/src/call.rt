// The price test, as a call over lent buffers.
ghost use Rattle.std.specs.Prelude.{◌≡◌, ◌↔◌, ◌≤◌, length};
ghost use Rattle.job.specs.Sizes.{plates_size, cuts_size};
ghost use Rattle.job.specs.Verdict.{pass, ◌then◌};
ghost use Rattle.job.specs.Refused.{row_verdict};
ghost use Rattle.job.specs.Buffers.{answer, sized};
ghost use Rattle.job.specs.Job.{job_of, job_words, admission};
ghost use Rattle.listing.specs.ListCall.{plates_end, cuts_end};
ghost use Rattle.plan.specs.Prices.{price_words};
ghost use Rattle.plan.specs.PriceCall.{price_verdict, price_answer};
ghost use Rattle.plan.specs.Exactly.{Accepts, PricesRight};
ghost use Rattle.layouts.specs.Promises.{PricePromise};
ghost use Rattle.price_test.specs.PriceSays.{says_of, OnAccepted, sum_and_d, price_tail};

use crate::prices::{Bound, price_rows, price_words};
use job::admit::{admit, job_words};
use job::job_read::JobRead;
use job::lent::model_sized;
use job::refused::Refused;
use job::words::clear;
use listing_call::call::list_into;
use plan_test::listed_job::ListedJob;

// The line row of the job's words and of the price words, and then the job row.
fn words_and_job(job: &[u16], prices: &[u16]) -> Result<(), Refused>
    ensures { row_verdict result ≡ (job_words job.now then price_words prices.now then admission (job_of job.now)) }
{
    job_words(job)?;
    price_words(prices)?;
    admit(job)
}

// The rows before the model: the words and the job, and then the lent buffers.
fn price_checks(job: &[u16], prices: &[u16], plates: &[u16], cuts: &[u16]) -> Result<(), Refused>
    ensures { row_verdict result ≡ ((job_words job.now then price_words prices.now then admission (job_of job.now)) then sized 1 plates_size plates.now then sized 2 cuts_size cuts.now) }
{
    words_and_job(job, prices)?;
    model_sized(plates, cuts)
}

// Lists an admitted job into buffers of full size, and tests prices by it.
fn price_into(
    job: &[u16],
    prices: &[u16],
    plates: &mut [u16],
    cuts: &mut [u16],
) -> Result<Bound, Refused>
    requires job_value { (job_words job.now then price_words prices.now then admission (job_of job.now)) ≡ pass }
    requires plates_size_in_bounds { (plates_size ≤ length plates.old) × (cuts_size ≤ length cuts.old) }
    ensures result_value { says_of result ≡ answer (price_tail (job_of job.now) prices.now) (sum_and_d (job_of job.now) prices.now) }
    ensures plates_after { plates.new ≡ plates_end (price_tail (job_of job.now) prices.now) job.now plates.old }
    ensures cuts_after { cuts.new ≡ cuts_end (price_tail (job_of job.now) prices.now) job.now cuts.old }
{
    let listed = list_into(job, plates, cuts)?;
    let listed_job = ListedJob {
        job: JobRead::new(job),
        cuts,
        plates: listed.plates,
        last: listed.cuts,
    };
    match price_rows(&listed_job, prices) {
        Ok(bound) => Ok(bound),
        Err(row) => {
            clear(plates);
            clear(cuts);
            Err(row)
        }
    }
}

// The price test: the sum of price times demand, and D, where the prices are accepted.
// Refused are 1 and 2 of the job's words; 2 a price word outside its limits, naming it from 1; 3 and 4 of the job; 5 a buffer shorter than its full
// size, plates 1, cuts 2; 6 and 7 of the model, naming 0; 13 another number of words than the model's, naming 0; 14 a cut over its limit. Plates and
// cuts end as the listing; after 5 they are unchanged, after another refusal every word of them is 0. Prices are accepted
// exactly when all that `PricesRight` names is right; their sum and D bound the cost of every set of layouts, by demand 3.
pub fn test_prices(
    job: &[u16],
    prices: &[u16],
    plates: &mut [u16],
    cuts: &mut [u16],
) -> Result<Bound, Refused>
    ensures result_value { says_of result ≡ price_answer job.now prices.now plates.old cuts.old }
    ensures plates_after { plates.new ≡ plates_end (price_verdict job.now prices.now plates.old cuts.old) job.now plates.old }
    ensures cuts_after { cuts.new ≡ cuts_end (price_verdict job.now prices.now plates.old cuts.old) job.now cuts.old }
    ensures variant { Accepts (says_of result) ↔ PricesRight job.now prices.now plates.old cuts.old }
    ensures on_accepted { OnAccepted result (PricePromise job.now) }
{
    match price_checks(job, prices, plates, cuts) {
        Err(refused) => {
            refused.end(plates);
            refused.end(cuts);
            Err(refused)
        }
        Ok(()) => price_into(job, prices, plates, cuts),
    }
}
