// Line 8: cost, sum, D, cheapest.
ghost use Rattle.std.specs.Prelude.{◌≡◌, cond, [], ◌∷◌, ◌+◌, ◌≤◌, length};
ghost use Rattle.plan.specs.Prices.{is_cheapest};
ghost use Rattle.columns.specs.Line.{line_of};
ghost use Rattle.texts.specs.Widths.{summary_line_bytes};
ghost use Rattle.texts_writing.specs.Wrote.{Wrote};

use columns::line::put_line;
use texts::widths::SUMMARY_LINE;

// Whether (cost − 1) × D, up to 39,955,994,001, is below the sum, so that no set of layouts that keeps the rules and meets the
// demands costs less.
pub fn is_cheapest(cost: u32, sum: u32, d: u16) -> bool
    ensures { result ≡ is_cheapest cost sum d }
{
    if cost == 0 {
        return 0 < sum;
    }
    ((cost - 1) as u64) * (d as u64) < sum as u64
}

// Writes line 8 at a position; its end is handed back.
pub fn write_result(out: &mut [u8], at: usize, cost: u32, sum: u32, d: u16, cheapest: bool) -> usize
    requires { at + summary_line_bytes ≤ length out.old }
    ensures { Wrote out.old at (line_of (8 ∷ cost ∷ sum ∷ d ∷ cond cheapest 1 0 ∷ [])) result out.new }
{
    let line = [8, cost, sum, d as u32, u32::from(cheapest)];
    put_line(out, at, &line);
    at + SUMMARY_LINE
}
