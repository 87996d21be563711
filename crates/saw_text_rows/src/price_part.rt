// The prices row of a saw text: 13 by the n and the m of line 4, then 14.
ghost use Rattle.std.specs.Prelude.{◌≡◌, [], ◌∷◌, ◌≤◌, length};
ghost use Rattle.std.proofs.Math.Option.{Option, some};
ghost use Rattle.job.specs.Sizes.{prices_size};
ghost use Rattle.job.specs.Verdict.{pass};
ghost use Rattle.job.specs.Buffers.{answer};
ghost use Rattle.job.specs.Job.{job_of, job_words};
ghost use Rattle.listing.specs.Listing.{Listing};
ghost use Rattle.listing.specs.CutRead.{cuts_read};
ghost use Rattle.price_test.specs.PriceSays.{says_of};
ghost use Rattle.texts.specs.SawText.{price_lines_row};
ghost use Rattle.texts.specs.SawText.{PriceLines as Lines456};
ghost use Rattle.texts_writing.specs.Wrote.{sum_given, denominator_given};
ghost use Rattle.saw_text_rows.specs.Tail.{PricesGiven, PricesEnd};

use job::refused::{Refusal, Refused};
use plan_test::listed_job::ListedJob;
use price_test::prices::{Bound, price_rows, price_words};
use saw_text_body::price_lines::PriceLines;

// The prices row of lines 4, 5 and 6: 13 where the n or the m of line 4 is not the model's; then 14 of the price words.
fn prices_given(lines: PriceLines, listed: &ListedJob, prices: &[u16]) -> Result<Bound, Refused>
    requires { (job_words listed.now.job.words.now ≡ pass) × (prices_size ≤ length prices.now) }
    ensures { (l : Listing) (ps : Lines456) → l.sizes ≡ listed.now.job.head.sizes.0 → length l.plates ≡ listed.now.plates.0 → l.cuts ≡ cuts_read listed.now.last.0 listed.now.cuts.now → PricesGiven ps lines prices.now → says_of result ≡ answer (price_lines_row (job_of listed.now.job.words.now) l (some ps)) (sum_given (job_of listed.now.job.words.now) (some ps) ∷ denominator_given (job_of listed.now.job.words.now) (some ps) ∷ []) }
{
    let n = listed.job.head.types;
    let residuals = listed.plates.residuals(listed.job.head.sizes);
    if lines.types.0 != n.0 || lines.residuals != residuals {
        return Err(Refusal::PricesNumber.at(0));
    }
    let size = 1 + n.0 as usize + residuals as usize;
    price_words(&prices[..size])?;
    price_rows(listed, &prices[..size])
}

// The prices row, whole, with the sum and D; without prices the sum is 0 and D is 1.
pub fn prices_of_text(
    lines: PriceLines,
    listed: &ListedJob,
    prices: &[u16],
) -> Result<Bound, Refused>
    requires { (job_words listed.now.job.words.now ≡ pass) × (prices_size ≤ length prices.now) }
    ensures { (l : Listing) (o : Option Lines456) → l.sizes ≡ listed.now.job.head.sizes.0 → length l.plates ≡ listed.now.plates.0 → l.cuts ≡ cuts_read listed.now.last.0 listed.now.cuts.now → PricesEnd o lines prices.now → says_of result ≡ answer (price_lines_row (job_of listed.now.job.words.now) l o) (sum_given (job_of listed.now.job.words.now) o ∷ denominator_given (job_of listed.now.job.words.now) o ∷ []) }
{
    if lines.given {
        return prices_given(lines, listed, prices);
    }
    Ok(Bound { sum: 0, d: 1 })
}
