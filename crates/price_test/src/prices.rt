// The price test: 2 a word outside its limits, 13 prices that are not the model's, 14 a cut over its limit.
ghost use Rattle.std.specs.Prelude.{◌≡◌, ◌+◌, ◌*◌, ◌-◌, ◌<◌, length};
ghost use Rattle.job.specs.Verdict.{pass, ◌then◌, lowest};
ghost use Rattle.job.specs.Refused.{row_verdict};
ghost use Rattle.job.specs.Buffers.{answer};
ghost use Rattle.job.specs.Job.{job_of, job_words};
ghost use Rattle.listing.specs.Listing.{Listing};
ghost use Rattle.listing.specs.CutRead.{cut_in, cuts_read, InRange};
ghost use Rattle.plan.specs.Prices.{prices_at, prices_of, price_words, residual_price, price_limit, over_limit, prices_sized, prices_row, price_sum};
ghost use Rattle.price_test.specs.PriceSays.{says_of, sum_and_d};

use job::counters::{CutNumber, ItemType, PlateType};
use job::refused::{Refusal, Refused};
use job::size::Size;
use job::sizes::MAX_PRICE;
use job::words::item_at;
use listing::cut::CutRecord;
use plan_test::listed_job::ListedJob;

// What prices come to that are accepted: the sum of price times demand, and D.
#[derive(Clone, Copy, Debug, PartialEq, Eq)]
pub struct Bound {
    pub sum: u32,
    pub d: u16,
}

// The line row of price words: 2 for the lowest word outside its limits, naming it from 1.
pub fn price_words(prices: &[u16]) -> Result<(), Refused>
    ensures { row_verdict result ≡ price_words prices.now }
{
    let Some(&d) = prices.first() else {
        return Ok(());
    };
    if d == 0 {
        return Err(Refusal::Limits.at(1));
    }
    for i in 0..prices.len() {
        if MAX_PRICE < prices[i] {
            return Err(Refusal::Limits.at(i + 1));
        }
    }
    Ok(())
}

// What a cut on a size may come to: D times its cost.
fn size_limit(d: u16, size: Size) -> u32
    ensures { result ≡ d * size.cost }
{
    (d as u32) * (size.cost as u32)
}

// A listed job with prices for it: D, then a price for each item type, and then one for each residual type.
#[derive(Clone, Copy)]
struct Priced<'a> {
    listed: ListedJob<'a>,
    prices: &'a [u16],
    ghost whole: { length prices.now ≡ 1 + listed.job.head.types.0 + (listed.plates.0 - listed.job.head.sizes.0) },
}

impl<'a> Priced<'a> {
    // The price of a residual type; 0 for the number of a size, which is no residual's.
    fn residual_price(&self, j: PlateType) -> u32
        requires { j.0 < self.now.listed.plates.0 }
        ensures value { result ≡ residual_price (job_of self.now.listed.job.words.now) (prices_at self.now.listed.job.head.types.0 self.now.prices.now) j.0 }
        ensures upper_bound { result < 65536 }
    {
        let head = self.listed.job.head;
        if j.0 < head.sizes.0 {
            return 0;
        }
        self.prices[1 + head.types.0 as usize + (j.0 - head.sizes.0) as usize] as u32
    }

    // What a cut on a plate type may come to: on a size D times its cost, else the price of the plate cut.
    fn price_limit(&self, j: PlateType) -> u32
        requires { j.0 < self.now.listed.plates.0 }
        ensures { result ≡ price_limit (job_of self.now.listed.job.words.now) (prices_at self.now.listed.job.head.types.0 self.now.prices.now) j.0 }
    {
        if j.0 < self.listed.job.head.sizes.0 {
            return size_limit(self.prices[0], self.listed.job.size(j));
        }
        self.residual_price(j)
    }

    // Whether a cut's item, whose type has one price in both turns, and its kept residuals come to more than the cut may.
    fn over_limit(&self, cut: CutRecord) -> bool
        requires { InRange self.now.listed.plates.0 self.now.listed.job.head.types.0 (cut_in cut) }
        ensures { result ≡ over_limit (job_of self.now.listed.job.words.now) (prices_at self.now.listed.job.head.types.0 self.now.prices.now) (cut_in cut) }
    {
        let i = cut.item.0 as usize / 2;
        let item = self.prices[i] as u32;
        let top = self.residual_price(cut.top);
        let right = self.residual_price(cut.right);
        self.price_limit(cut.plate) < item + top + right
    }

    // 14 for the lowest cut that is over its limit.
    fn cuts_over(&self) -> Result<(), Refused>
        ensures { row_verdict result ≡ lowest 14 (λ _ c. over_limit (job_of self.now.listed.job.words.now) (prices_at self.now.listed.job.head.types.0 self.now.prices.now) c) 1 (cuts_read self.now.listed.last.0 self.now.listed.cuts.now) }
    {
        for c in 0..self.listed.last.0 {
            let cut = self.listed.cut(CutNumber(c + 1));
            if self.over_limit(cut) {
                return Err(Refusal::CutOverLimit.at(c as usize + 1));
            }
        }
        Ok(())
    }

    // The sum of price times demand over the item types.
    fn sum(&self) -> u32
        requires { (job_words self.now.listed.job.words.now ≡ pass) × (price_words self.now.prices.now ≡ pass) }
        ensures { result ≡ price_sum (job_of self.now.listed.job.words.now) (prices_at self.now.listed.job.head.types.0 self.now.prices.now) }
    {
        let mut sum: u32 = 0;
        for i in 1..self.listed.job.head.types.0 + 1 {
            let item = item_at(self.listed.job.words, ItemType(i));
            sum += (self.prices[i as usize] as u32) * (item.demand as u32);
        }
        sum
    }
}

// The prices row, whole, of the prices for a listed job.
pub fn price_rows(listed: &ListedJob, prices: &[u16]) -> Result<Bound, Refused>
    requires job_value { (job_words listed.now.job.words.now ≡ pass) × (price_words prices.now ≡ pass) }
    ensures { (l : Listing) → l.sizes ≡ listed.now.job.head.sizes.0 → length l.plates ≡ listed.now.plates.0 → l.cuts ≡ cuts_read listed.now.last.0 listed.now.cuts.now → says_of result ≡ answer (prices_sized (job_of listed.now.job.words.now) l prices.now then prices_row (job_of listed.now.job.words.now) l (prices_of (job_of listed.now.job.words.now) prices.now)) (sum_and_d (job_of listed.now.job.words.now) prices.now) }
{
    let head = listed.job.head;
    let words = 1 + head.types.0 as usize + listed.plates.residuals(head.sizes) as usize;
    if prices.len() != words {
        return Err(Refusal::PricesNumber.at(0));
    }
    let priced = Priced {
        listed: *listed,
        prices,
    };
    priced.cuts_over()?;
    Ok(Bound {
        sum: priced.sum(),
        d: prices[0],
    })
}
