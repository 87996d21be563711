// The fold: the cuts of a set of layouts, strip after strip, counted.
ghost use Rattle.std.specs.Prelude.{◌≡◌, true, List, ◌++◌, ℕ, ◌+◌, ◌≤◌, ◌<◌, length, drop};
ghost use Rattle.job.specs.Lists.{tally};
ghost use Rattle.job.specs.Buffers.{filled};
ghost use Rattle.job.specs.Mode.{three as three_stages};
ghost use Rattle.job.specs.Job.{job_of};
ghost use Rattle.listing.specs.Listing.{listing_of};
ghost use Rattle.listing.specs.Holds.{Holds};
ghost use Rattle.layouts.specs.Layout.{strip_height, stage_rule};
ghost use Rattle.layouts.specs.Placement.{items_of_strip};
ghost use Rattle.layouts.specs.Lines.{rows_of, set_of};
ghost use Rattle.layouts.specs.Fold.{ordered, folded};
ghost use Rattle.layouts_strips.specs.First.{strip_of};
ghost use Rattle.fold_counts.specs.Lent.{CutsLent, LinesLent, Counting, strip_room};
ghost use Rattle.fold_counts.specs.Strip.{strip_begun, strip_above, EachStaged};

use crate::count::count_cut;
use crate::lines::fold_lines;
use crate::strip::{fold_others, front_item};
use job::counters::{CutNumber, PlateType};
use job::mode::Mode;
use job::words::clear;
use layouts_strips::lines::Lines;

// The line behind the last of a strip, and the plate type that the next strip of the board is cut from.
#[derive(Clone, Copy, Debug, PartialEq, Eq)]
pub struct StripFolded {
    pub end: usize,
    pub board: PlateType,
}

// Cuts a strip of three stages, which begins behind a lines and is so high, from plate type j; gives the plate type that is left above it.
fn fold_three(
    lines: &Lines,
    a: usize,
    height: u32,
    cuts: &[u16],
    k: CutNumber,
    j: PlateType,
    counts: &mut [u16],
) -> PlateType
    requires lines_lent { (LinesLent lines.now.job.now lines.now.layouts.now lines.now.number) × (a < lines.now.number) }
    requires cuts_lent { CutsLent (listing_of (job_of lines.now.job.now)) cuts.now k.0 }
    requires counting { Counting counts.old k.0 strip_room }
    requires job_value { (three_stages (job_of lines.now.job.now).mode ≡ true) × ((height ≡ strip_height (job_of lines.now.job.now) (strip_of (drop a (rows_of lines.now.layouts.now)))) × (stage_rule (job_of lines.now.job.now) (strip_of (drop a (rows_of lines.now.layouts.now))) ≡ true)) }
    ensures result_value { result.0 ≡ strip_above (listing_of (job_of lines.now.job.now)) j.0 (ordered (job_of lines.now.job.now) (strip_of (drop a (rows_of lines.now.layouts.now)))) }
    ensures by_index { (ks : List ℕ) → Holds counts.old (tally k.0 1 ks) → Holds counts.new (tally k.0 1 (ks ++ strip_begun (listing_of (job_of lines.now.job.now)) j.0 (ordered (job_of lines.now.job.now) (strip_of (drop a (rows_of lines.now.layouts.now)))))) }
{
    let front = front_item(lines, a, height);
    let left = count_cut(cuts, k, j, front, true, counts);
    let right = left.other;
    fold_others(lines, a, height, cuts, k, right, counts);
    left.own
}

// Cuts the strip that begins behind a lines from plate type j.
fn fold_strip(
    lines: &Lines,
    a: usize,
    three: bool,
    cuts: &[u16],
    k: CutNumber,
    j: PlateType,
    counts: &mut [u16],
) -> StripFolded
    requires lines_lent { (LinesLent lines.now.job.now lines.now.layouts.now lines.now.number) × (a < lines.now.number) }
    requires cuts_lent { CutsLent (listing_of (job_of lines.now.job.now)) cuts.now k.0 }
    requires counting { Counting counts.old k.0 strip_room }
    requires three_value { (three ≡ three_stages (job_of lines.now.job.now).mode) × (stage_rule (job_of lines.now.job.now) (strip_of (drop a (rows_of lines.now.layouts.now))) ≡ true) }
    ensures end_value { (result.end ≡ a + length (items_of_strip (strip_of (drop a (rows_of lines.now.layouts.now))))) × ((a < result.end) × ((result.end ≤ lines.now.number) × (result.board.0 ≡ strip_above (listing_of (job_of lines.now.job.now)) j.0 (ordered (job_of lines.now.job.now) (strip_of (drop a (rows_of lines.now.layouts.now))))))) }
    ensures by_index { (ks : List ℕ) → Holds counts.old (tally k.0 1 ks) → Holds counts.new (tally k.0 1 (ks ++ strip_begun (listing_of (job_of lines.now.job.now)) j.0 (ordered (job_of lines.now.job.now) (strip_of (drop a (rows_of lines.now.layouts.now)))))) }
{
    let m = lines.strip_at(a);
    let end = m.end;
    let height = m.height;
    if three {
        let board = fold_three(lines, a, height, cuts, k, j, counts);
        return StripFolded { end, board };
    }
    let board = fold_lines(
        lines.job,
        lines.layouts,
        lines.number,
        a,
        end,
        false,
        cuts,
        k,
        j,
        counts,
    );
    StripFolded { end, board }
}

// Counts the cuts of a set of layouts that keeps the stage rules, in folding's order, over the k cuts of the job's listing. The first strip of a board is
// cut from the plate type of its size, a further one from what is left above the strip below it.
// Words and a number in place of `Lines`: what may not change (`fold_into`, which docs/performance.md names).
pub fn fold_into(
    job: &[u16],
    layouts: &[u16],
    lines: usize,
    mode: Mode,
    cuts: &[u16],
    k: CutNumber,
    counts: &mut [u16],
)
    requires lines_lent { LinesLent job.now layouts.now lines }
    requires mode_value { (mode ≡ (job_of job.now).mode) × EachStaged (job_of job.now) (set_of layouts.now) }
    requires cuts_lent { (CutsLent (listing_of (job_of job.now)) cuts.now k.0) × (k.0 ≤ length counts.old) }
    ensures { counts.new ≡ filled (length counts.old) (folded (job_of job.now) (listing_of (job_of job.now)) (set_of layouts.now)) }
{
    let lent = Lines {
        job,
        layouts,
        number: lines,
    };
    clear(counts);
    let three = mode.three();
    let mut a: usize = 0;
    let mut board = lent.size_named(0);
    while a < lines {
        let strip = fold_strip(&lent, a, three, cuts, k, board, counts);
        a = strip.end;
        board = lent.strip_plate(a, strip.board);
    }
}
