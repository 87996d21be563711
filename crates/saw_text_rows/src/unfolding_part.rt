// The unfolding of an accepted plan, and its lines 7 and line 8.
ghost use Rattle.std.specs.Prelude.{◌≡◌, ◌≤◌, length};
ghost use mathlib.Core.List.{[], ◌++◌, flat_map};
ghost use Rattle.job.specs.Verdict.{pass, ◌then◌};
ghost use Rattle.job.specs.Sizes.{counts_size, placements_size};
ghost use Rattle.listing.specs.Holds.{Holds};
ghost use Rattle.plan.specs.Plan.{counts_row, plan_row};
ghost use Rattle.layouts.specs.Placement.{placement_words};
ghost use Rattle.layouts.specs.UnfoldCall.{unfolding_of};
ghost use Rattle.layouts.specs.Demand3.{J, L};
ghost use Rattle.unfold_step.specs.Ready.{ModelLent};
ghost use Rattle.texts.specs.SawText.{placement_line};
ghost use Rattle.texts_writing.specs.Wrote.{Wrote, summary_line, longest_saw};

use job::counters::CutNumber;
use texts_writing::output::write_unfolding;
use unfold_call::call::unfold_plan;
use unfold_offcut::Lengths;

// Unfolds an accepted plan, whose boards cost so much, over a listing of k cuts, and writes its lines 7 and line 8; their end is handed back. A saw
// text lists no offcut, so the list that is lent has no room for any.
pub fn write_plan(
    job: &[u16],
    counts: &[u16],
    plates: &[u16],
    cuts: &[u16],
    k: CutNumber,
    cost: u32,
    sum: u32,
    d: u16,
    placements: &mut [u16],
    out: &mut [u8],
) -> usize
    requires model_lent { ModelLent job.now plates.now cuts.now k.0 }
    requires counts_size_in_bounds { (counts_size ≤ length counts.now) × ((counts_row (L job.now) counts.now then plan_row (J job.now) (L job.now) counts.now) ≡ pass) }
    requires holds { (Holds placements.old []) × ((placements_size ≤ length placements.old) × (longest_saw ≤ length out.old)) }
    ensures wrote { Wrote out.old 0 (flat_map placement_line (unfolding_of job.now counts.now).placements ++ summary_line cost sum d) result out.new }
    ensures holds_2 { Holds placements.new (placement_words (unfolding_of job.now counts.now).placements) }
{
    let lengths = Lengths {
        first: 1,
        second: 1,
    };
    let mut unlisted = [0u16; 1];
    let ran = unfold_plan(
        job,
        counts,
        plates,
        cuts,
        k,
        lengths,
        placements,
        &mut unlisted,
    );
    write_unfolding(out, placements, ran.pieces as usize, cost, sum, d)
}
