// What the saw program writes of an accepted plan: lines 7, then line 8.
ghost use mathlib.Core.List.{flat_map, ◌++◌};
ghost use Rattle.std.specs.Prelude.{◌+◌, ◌*◌, ◌≤◌, length, take};
ghost use Rattle.job.specs.Sizes.{words_of_placement};
ghost use Rattle.layouts.specs.Lines.{rows_of};
ghost use Rattle.texts.specs.Widths.{placement_line_bytes, summary_line_bytes};
ghost use Rattle.texts.specs.SawText.{placement_line};
ghost use Rattle.texts_writing.specs.Wrote.{Wrote, summary_line};

use crate::lines7::write_placements;
use crate::summary::{is_cheapest, write_result};

// Writes the lines 7 of the first placements and then line 8, at the start of the output; their end is handed back. Without prices the sum is 0 and D is 1.
pub fn write_unfolding(
    out: &mut [u8],
    placements: &[u16],
    pieces: usize,
    cost: u32,
    sum: u32,
    d: u16,
) -> usize
    requires { (placement_line_bytes * pieces + summary_line_bytes ≤ length out.old) × (words_of_placement * pieces ≤ length placements.now) }
    ensures { Wrote out.old 0 (flat_map placement_line (rows_of (take (words_of_placement * pieces) placements.now)) ++ summary_line cost sum d) result out.new }
{
    let at = write_placements(out, placements, pieces);
    write_result(out, at, cost, sum, d, is_cheapest(cost, sum, d))
}
