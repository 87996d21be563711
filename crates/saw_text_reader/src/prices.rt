// The lines 6 that stand whole in a part, one after another: only what they change is moved.
ghost use Rattle.std.specs.Prelude.{Some, ◌≡◌, true, List, ℕ, ◌+◌, ◌≤◌, ◌<◌, length, take, drop};
ghost use Rattle.job.specs.Sizes.{longest_job, prices_size};
ghost use Rattle.columns.specs.Widths.{group_bytes, most_numbers};
ghost use Rattle.columns.specs.Group.{mark, number_of};
ghost use Rattle.texts.specs.Reader.{max_lines};
ghost use Rattle.texts_reading.specs.Standing.{TextReady};
ghost use Rattle.saw_text_lines.specs.SawKept.{lent};
ghost use Rattle.saw_text_reader.specs.Onward.{ReadOn};
ghost use Rattle.saw_text_reader.specs.PriceRun.{four_digits, in_prices, PriceAs, PlateWithin, InPrices, PricesRan};

use crate::saw::SawReader;
use crate::whole::LinesRead;
use columns::line::complete_line;
use columns::widths::{GROUP, LEAD, MOST_NUMBERS};
use columns::word::{blank_at, front_blank};
use job::counters::{BoardSizes, PlateType};
use job::head::head_of;
use job::sizes::{MAX_PRICE, MAX_RESIDUALS, MAX_SIZES, MAX_TYPES};
use saw_text_body::price_lines::PriceLines;
use texts::widths::{MAX_LINES, PRICE_LINE};
use texts_reading::text::{Place, TextReader};

// The lines 6 after some more of them: the plate type of the next, the lines of the text, and where the next begins in the part.
#[derive(Clone, Copy, Debug, PartialEq, Eq)]
pub struct PriceRun {
    pub plate: PlateType,
    pub lines: u32,
    pub at: usize,
}

// True only if b is the column before the last up to which n stands: a blank for 0, else its last digit.
#[tactic(auto, unfolding(columns::specs::Group::mark))]
fn column_is(b: u8, n: u16) -> bool
    ensures { result ≡ true → b ≡ mark n }
{
    if n == 0 {
        return b == b' ';
    }
    b == 48 + (n % 10) as u8
}

// True only if the nine columns at a position hold n, of at most four digits: it is known, and only compared.
#[tactic(auto, using(crate::proofs::KnownNumber::number_known))]
fn number_is(part: &[u8], at: usize, n: u16) -> bool
    requires { (at + group_bytes ≤ length part.now) × (n < four_digits) }
    ensures { result ≡ true → number_of (take group_bytes (drop at part.now)) ≡ Some n }
{
    front_blank(part, at)
        && part[at + 4] == b' '
        && column_is(part[at + 5], n / 1000)
        && column_is(part[at + 6], n / 100)
        && column_is(part[at + 7], n / 10)
        && part[at + 8] == 48 + (n % 10) as u8
}

// The price on the line 6 of plate type j that begins at `at`, if it is of the form, within its limits, and ends in the part. The price and byte 10 behind it
// are read as a line of one number, into a lent array.
fn price_at(part: &[u8], at: usize, j: PlateType, numbers: &mut [u32; MOST_NUMBERS]) -> Option<u16>
    requires { (at ≤ length part.now) × ((j.0 < four_digits) × (length numbers.old ≡ most_numbers)) }
    ensures { PriceAs part.now at j.0 numbers.new result }
{
    if part.len() - at < PRICE_LINE {
        return None;
    }
    if !blank_at(part, at) {
        return None;
    }
    if part[at + LEAD] != b'6' {
        return None;
    }
    if !number_is(part, at + GROUP, j.0) {
        return None;
    }
    let Some(k) = complete_line(part, at + 2 * GROUP, numbers) else {
        return None;
    };
    if k != 1 {
        return None;
    }
    let price = numbers[0];
    if price > MAX_PRICE as u32 {
        return None;
    }
    Some(price as u16)
}

// The lines 6 from `from` on that end in the part and are admitted, but the last of the text, of a job of t sizes and a line 4.
fn price_run(
    t: BoardSizes,
    priced: PriceLines,
    first: PlateType,
    before: u32,
    part: &[u8],
    from: usize,
    prices: &mut [u16],
) -> PriceRun
    requires from_in_bounds { (from ≤ length part.now) × (before ≤ max_lines) }
    requires plate_within { PlateWithin t priced first × (prices_size ≤ length prices.old) }
    ensures { PricesRan part.now from t priced first before prices.old result prices.new }
{
    let mut plate = first;
    let mut at = from;
    let mut numbers = [0u32; MOST_NUMBERS];
    for lines in before..MAX_LINES {
        let j = plate.0;
        if t.0 + priced.residuals <= j + 1 {
            return PriceRun { plate, lines, at };
        }
        let Some(price) = price_at(part, at, plate, &mut numbers) else {
            return PriceRun { plate, lines, at };
        };
        let word = priced.types.0 as usize + 1 + (j - t.0) as usize;
        prices[word] = price;
        plate = PlateType(j + 1);
        at += PRICE_LINE;
    }
    PriceRun {
        plate,
        lines: MAX_LINES,
        at,
    }
}

// True only if plate type j is one of the residual types of line 4, of a job of t sizes, and each number is within its limits.
fn plate_within(t: BoardSizes, priced: PriceLines, j: PlateType) -> bool
    ensures { result ≡ true → PlateWithin t priced j }
{
    t.0 <= MAX_SIZES
        && priced.types.0 <= MAX_TYPES
        && priced.residuals <= MAX_RESIDUALS
        && t.0 <= j.0
        && j.0 < t.0 + priced.residuals
}

// True only if a text at line 6 of plate type j, of a job of t sizes, goes on with it: no line has begun or is refused.
fn goes_on(reader: SawReader, t: BoardSizes, j: PlateType) -> bool
    ensures { result ≡ true → InPrices reader t j }
{
    reader.text.refusal == 0
        && reader.text.pending.length == 0
        && plate_within(t, reader.held.prices, j)
}

impl SawReader {
    // The state of a text at its lines 6 after more of them.
    fn in_prices(self, plate: PlateType, lines: u32) -> SawReader
        ensures { result ≡ in_prices self plate lines }
    {
        SawReader {
            text: TextReader {
                place: Place::PlatePrices(plate),
                lines,
                refusal: 0,
                ..self.text
            },
            ..self
        }
    }

    // Lines 6 that come next and stand whole in the part, but the last of the text; where none is taken nothing changes.
    pub fn prices(self, part: &[u8], from: usize, job: &[u16], prices: &mut [u16]) -> LinesRead
        requires from_in_bounds { (from ≤ length part.now) × TextReady self.text }
        requires longest_job_in_bounds { (longest_job ≤ length job.now) × (prices_size ≤ length prices.old) }
        ensures { (plates cuts counts : List ℕ) → ReadOn part.now from self (lent job.now plates cuts counts prices.old) result.at result.reader (lent job.now plates cuts counts prices.new) }
    {
        let Place::PlatePrices(j) = self.text.place else {
            return LinesRead {
                reader: self,
                at: from,
            };
        };
        let t = head_of(job).sizes;
        if !goes_on(self, t, j) {
            return LinesRead {
                reader: self,
                at: from,
            };
        }
        let run = price_run(t, self.held.prices, j, self.text.lines, part, from, prices);
        LinesRead {
            reader: self.in_prices(run.plate, run.lines),
            at: run.at,
        }
    }
}
