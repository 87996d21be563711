// The layouts row of a fold text whose job is listed, the fold of its layouts, and its lines 3; or line 9.
ghost use Rattle.std.specs.Prelude.{◌≡◌, List, ℕ, ◌≤◌, ◌<◌, length};
ghost use Rattle.job.specs.Verdict.{Verdict, pass, refuse as refuses};
ghost use Rattle.job.specs.Buffers.{filled, counts_size};
ghost use Rattle.job.specs.Job.{job_of};
ghost use Rattle.listing.specs.Listing.{listing_of};
ghost use Rattle.layouts.specs.Lines.{rows_of, layout_words, set_of};
ghost use Rattle.layouts.specs.LayoutsRow.{layouts_row};
ghost use Rattle.layouts.specs.Fold.{folded};
ghost use Rattle.texts.specs.Widths.{place_limit};
ghost use Rattle.texts.specs.JobLines.{body, body_line};
ghost use Rattle.texts.specs.FoldText.{fold_of, fold_lines};
ghost use Rattle.texts_writing.specs.Wrote.{Wrote, longest_fold};
ghost use Rattle.fold_text_ending.specs.FoldEnd.{ListedLent, Answered};

use fold_counts::fold::fold_into;
use job::counters::CutNumber;
use job::head::head_of;
use job::sizes::PLACEMENT_WORDS;
use job::words::clear;
use layouts_row::front::layout_checks;
use layouts_row::rows::layouts_row;
use texts::widths::PLACE_LIMIT;
use texts_writing::lines3::write_counts;
use texts_writing::refusal::write_refusal;

// Every word of the lent buffers becomes 0, and line 9 is written; its end is handed back. A place of more than 32 bits, which no text has, writes nothing.
pub fn refuse(
    plates: &mut [u16],
    cuts: &mut [u16],
    counts: &mut [u16],
    out: &mut [u8],
    number: u16,
    place: usize,
) -> usize
    requires { longest_fold ≤ length out.old }
    ensures { (v : Verdict) (ws ls : List ℕ) → v ≡ refuses number place → place < place_limit → Answered v ws ls out.old (length plates.old) (length cuts.old) (length counts.old) result out.new plates.new cuts.new counts.new }
{
    clear(plates);
    clear(cuts);
    clear(counts);
    if place >= PLACE_LIMIT {
        return 0;
    }
    write_refusal(out, number, place)
}

// Folds layout lines that have passed the layouts row, over the k cuts of the job's listing, and writes a line 3 for each cut counted; their end is
// handed back.
pub fn write_fold(
    job: &[u16],
    layouts: &[u16],
    plates: &[u16],
    cuts: &[u16],
    k: CutNumber,
    counts: &mut [u16],
    out: &mut [u8],
) -> usize
    requires listed_lent { ListedLent job.now plates.now cuts.now k.0 }
    requires layouts_value { (layout_words (job_of job.now) layouts.now ≡ pass) × (layouts_row 1 (job_of job.now) (rows_of layouts.now) ≡ pass) }
    requires counts_size_in_bounds { (counts_size ≤ length counts.old) × (longest_fold ≤ length out.old) }
    ensures wrote { Wrote out.old 0 (fold_lines (fold_of body job.now layouts.now)) result out.new }
    ensures counts_after { counts.new ≡ filled (length counts.old) (folded (job_of job.now) (listing_of (job_of job.now)) (set_of layouts.now)) }
{
    let lines = layouts.len() / PLACEMENT_WORDS;
    let head = head_of(job);
    fold_into(job, layouts, lines, head.mode, cuts, k, counts);
    write_counts(out, plates, cuts, k, counts)
}

// The layouts row of layout words, at most 4,000 lines, and their fold. The words have passed the line row: where they have not, line 9 says so.
pub fn answer_rows(
    job: &[u16],
    layouts: &[u16],
    plates: &mut [u16],
    cuts: &mut [u16],
    k: CutNumber,
    counts: &mut [u16],
    out: &mut [u8],
) -> usize
    requires listed_lent { ListedLent job.now plates.old cuts.old k.0 }
    requires counts_size_in_bounds { (counts_size ≤ length counts.old) × (longest_fold ≤ length out.old) }
    ensures { layout_words (job_of job.now) layouts.now ≡ pass → Answered (layouts_row (body_line job.now) (job_of job.now) (rows_of layouts.now)) job.now layouts.now out.old (length plates.old) (length cuts.old) (length counts.old) result out.new plates.new cuts.new counts.new }
{
    let head = head_of(job);
    let first = head.sizes.0 as usize + head.types.0 as usize + 2;
    match layout_checks(job, layouts) {
        Err(row) => refuse(plates, cuts, counts, out, row.refusal.number(), row.place),
        Ok(()) => match layouts_row(job, layouts, first) {
            Err(row) => refuse(plates, cuts, counts, out, row.refusal.number(), row.place),
            Ok(()) => write_fold(job, layouts, plates, cuts, k, counts, out),
        },
    }
}
