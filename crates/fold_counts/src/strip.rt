// A strip of three stages: the leftmost single-item stack of the strip's height first, and then the others.
ghost use Rattle.std.specs.Prelude.{◌≡◌, true, false, cond, ◌&&◌, List, [], ◌∷◌, ◌++◌, ℕ, ◌+◌, ◌-◌, ◌*◌, ◌≤◌, ◌<◌, eqb, drop};
ghost use Rattle.job.specs.Sizes.{max_pieces};
ghost use Rattle.job.specs.Lists.{any, tally};
ghost use Rattle.job.specs.Job.{job_of};
ghost use Rattle.listing.specs.Listing.{listing_of};
ghost use Rattle.listing.specs.Holds.{Holds};
ghost use Rattle.layouts.specs.Layout.{full_stack};
ghost use Rattle.layouts.specs.Lines.{rows_of};
ghost use Rattle.layouts.specs.Fold.{falling, first_of, strip_cuts};
ghost use Rattle.layouts_strips.specs.First.{strip_of};
ghost use Rattle.fold_counts.specs.Lent.{CutsLent, LinesLent, Counting, others_room};
ghost use Rattle.fold_counts.specs.Key.{key_of, items_in};
ghost use Rattle.fold_counts.specs.Strip.{others, turn_cuts, turn_next};

use crate::key::item_in;
use crate::lines::fold_lines;
use job::counters::{CutNumber, ItemPosition, PlateType};
use layouts_strips::lines::Lines;
use layouts_strips::stack::StackMeasure;

// Where the stacks of a strip stand: the plate type that the next one is cut from, and whether the one that comes to the front is passed.
#[derive(Clone, Copy, Debug, PartialEq, Eq)]
pub struct Others {
    pub strip: PlateType,
    pub passed: bool,
}

// Whether a stack that begins behind p lines is a single item of a height.
fn is_full(m: StackMeasure, p: usize, height: u32) -> bool
    requires { p < max_pieces }
    ensures { result ≡ (eqb m.end (p + 1) && eqb m.height height) }
{
    m.end == p + 1 && m.height == height
}

// Whether a stack is the one that comes to the front: the first that is full.
fn is_front(passed: bool, m: StackMeasure, p: usize, height: u32) -> bool
    requires { p < max_pieces }
    ensures { result ≡ cond passed false (eqb m.end (p + 1) && eqb m.height height) }
{
    !passed && is_full(m, p, height)
}

// The item of the stack that comes to the front, of a strip that begins behind a lines and has such a stack.
pub fn front_item(lines: &Lines, a: usize, height: u32) -> ItemPosition
    requires lines_lent { (LinesLent lines.now.job.now lines.now.layouts.now lines.now.number) × (a < lines.now.number) }
    requires layouts_value { any (full_stack (job_of lines.now.job.now) height) (strip_of (drop a (rows_of lines.now.layouts.now))) ≡ true }
    ensures { first_of (full_stack (job_of lines.now.job.now) height) (strip_of (drop a (rows_of lines.now.layouts.now))) ≡ (result.0 ∷ []) ∷ [] }
{
    let mut p = a;
    loop {
        let m = lines.stack_at(p);
        if is_full(m, p, height) {
            return item_in(lines.layouts, p);
        }
        p = m.end;
    }
}

// Cuts the stack of the lines from the one behind p others up to that behind q, unless it comes to the front.
fn fold_other(
    lines: &Lines,
    p: usize,
    q: usize,
    front: bool,
    cuts: &[u16],
    k: CutNumber,
    at: Others,
    counts: &mut [u16],
) -> Others
    requires lines_lent { LinesLent lines.now.job.now lines.now.layouts.now lines.now.number }
    requires p_le_q { (p ≤ q) × (q ≤ lines.now.number) }
    requires cuts_lent { CutsLent (listing_of (job_of lines.now.job.now)) cuts.now k.0 }
    requires counting { Counting counts.old k.0 (2 * (q - p)) }
    ensures strip_value { (result.strip.0 ≡ turn_next (listing_of (job_of lines.now.job.now)) front at.strip.0 (falling (key_of (job_of lines.now.job.now) true) (items_in p (q - p) (rows_of lines.now.layouts.now)))) × (result.passed ≡ cond front true at.passed) }
    ensures by_index { (ks : List ℕ) → Holds counts.old (tally k.0 1 ks) → Holds counts.new (tally k.0 1 (ks ++ turn_cuts (listing_of (job_of lines.now.job.now)) front at.strip.0 (falling (key_of (job_of lines.now.job.now) true) (items_in p (q - p) (rows_of lines.now.layouts.now))))) }
{
    if front {
        return Others {
            strip: at.strip,
            passed: true,
        };
    }
    let strip = fold_lines(
        lines.job,
        lines.layouts,
        lines.number,
        p,
        q,
        true,
        cuts,
        k,
        at.strip,
        counts,
    );
    Others {
        strip,
        passed: at.passed,
    }
}

// Cuts the stacks of a strip that begins behind a lines, the first of them from plate type j, but for the one that comes to the front.
pub fn fold_others(
    lines: &Lines,
    a: usize,
    height: u32,
    cuts: &[u16],
    k: CutNumber,
    j: PlateType,
    counts: &mut [u16],
)
    requires lines_lent { (LinesLent lines.now.job.now lines.now.layouts.now lines.now.number) × (a < lines.now.number) }
    requires cuts_lent { CutsLent (listing_of (job_of lines.now.job.now)) cuts.now k.0 }
    requires counting { Counting counts.old k.0 others_room }
    ensures { (ks : List ℕ) → Holds counts.old (tally k.0 1 ks) → Holds counts.new (tally k.0 1 (ks ++ strip_cuts (listing_of (job_of lines.now.job.now)) j.0 (others (job_of lines.now.job.now) height false (strip_of (drop a (rows_of lines.now.layouts.now)))))) }
{
    let mut at = Others {
        strip: j,
        passed: false,
    };
    let mut p = a;
    loop {
        let m = lines.stack_at(p);
        let front = is_front(at.passed, m, p, height);
        at = fold_other(lines, p, m.end, front, cuts, k, at, counts);
        p = m.end;
        if !lines.begins_stack(p) {
            return;
        }
    }
}
