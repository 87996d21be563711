// Lines 3: a line for each cut that is counted, which shows its plate (request Five).
ghost use Rattle.std.specs.Prelude.{ℕ, ◌+◌, ◌-◌, ◌*◌, ◌≤◌, ◌<◌, length};
ghost use Rattle.job.specs.Sizes.{words_of_plate, words_of_cut, RecordIn};
ghost use Rattle.listing.specs.Holds.{plate_read};
ghost use Rattle.listing.specs.CutRead.{cut_read, cuts_read};
ghost use Rattle.texts.specs.FoldText.{count_lines};
ghost use Rattle.texts_writing.specs.Wrote.{Wrote, count_line};

use columns::line::put_line;
use job::counters::CutNumber;
use listing::cut::cut_at;
use listing::words::plate_at;
use texts::widths::PLAN_LINE;

// Writes line 3 of cut c at a position, unless its count n is 0; its end is handed back. The width, height and stage of its plate stand after the count.
fn put_count(out: &mut [u8], at: usize, plates: &[u16], cuts: &[u16], c: CutNumber, n: u16) -> usize
    requires le_c { (1 ≤ c.0) × (words_of_cut * c.0 ≤ length cuts.now) }
    requires record_in { RecordIn words_of_plate (cut_read cuts.now (c.0 - 1)).plate plates.now }
    requires n_in_bounds { at + length (count_line (plate_read plates.now) (cut_read cuts.now (c.0 - 1)) n) ≤ length out.old }
    ensures { Wrote out.old at (count_line (plate_read plates.now) (cut_read cuts.now (c.0 - 1)) n) result out.new }
{
    if n == 0 {
        return at;
    }
    let cut = cut_at(cuts, c);
    let p = plate_at(plates, cut.plate);
    let q = cut.item.0;
    let line = [
        3,
        cut.plate.0 as u32,
        (q / 2) as u32,
        n as u32,
        p.width as u32,
        p.height as u32,
        p.stage as u32,
        (q % 2) as u32,
    ];
    put_line(out, at, &line);
    at + PLAN_LINE
}

// Writes a line 3 for each of k cuts whose count is not 0, at the start of the output; their end is handed back.
pub fn write_counts(
    out: &mut [u8],
    plates: &[u16],
    cuts: &[u16],
    k: CutNumber,
    counts: &[u16],
) -> usize
    requires k_in_bounds { (words_of_cut * k.0 ≤ length cuts.now) × (k.0 ≤ length counts.now) }
    requires by_index { (c : ℕ) → c < k.0 → RecordIn words_of_plate (cut_read cuts.now c).plate plates.now }
    requires counts_in_bounds { length (count_lines (plate_read plates.now) (cuts_read k.0 cuts.now) counts.now) ≤ length out.old }
    ensures { Wrote out.old 0 (count_lines (plate_read plates.now) (cuts_read k.0 cuts.now) counts.now) result out.new }
{
    let mut at = 0;
    for c in 0..k.0 {
        at = put_count(out, at, plates, cuts, CutNumber(c + 1), counts[c as usize]);
    }
    at
}
