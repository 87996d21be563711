// The end of a fold text, from what is kept of it to the bytes that are written.
ghost use Rattle.std.specs.Prelude.{◌≡◌, true, false, List, ℕ, ◌*◌, ◌≤◌, length, take};
ghost use Rattle.job.specs.Sizes.{words_of_placement, longest_job};
ghost use Rattle.job.specs.Verdict.{pass, ◌then◌};
ghost use Rattle.job.specs.Buffers.{plates_size, cuts_size, counts_size, placements_size};
ghost use Rattle.job.specs.Job.{job_of};
ghost use Rattle.listing.specs.Holds.{Holds};
ghost use Rattle.layouts.specs.Lines.{rows_of, layout_words};
ghost use Rattle.layouts.specs.LayoutsRow.{layouts_row};
ghost use Rattle.texts.specs.JobLines.{body_line};
ghost use Rattle.texts.specs.Reader.{Reader, text_row};
ghost use Rattle.texts.specs.FoldText.{Fold, fold_grammar, fold_rows};
ghost use Rattle.fold_text_reader.specs.FoldKept.{layouts_size};
ghost use Rattle.texts_writing.specs.Wrote.{longest_fold};
ghost use Rattle.fold_text_ending.specs.FoldEnd.{last_rows, ListedLent, WholeKept, TextEnds, Answered, room_to_end, Unchanged};

use crate::fold_part::{answer_rows, refuse};
use crate::line_row::fold_row;
use fold_text_reader::lines::MOST_ROWS;
use job::counters::CutNumber;
use job::head::head_of;
use job::refused::Refusal;
use job::sizes::{
    COUNTS_SIZE, CUTS_SIZE, HEAD_WORDS, ITEM_WORDS, JOB_SIZE, MAX_SIZES, MAX_TYPES,
    PLACEMENT_WORDS, PLACEMENTS_SIZE, PLATES_SIZE, SIZE_WORDS,
};
use listing_call::call::list;
use texts_reading::text::TextReader;
use texts_writing::sizes::LONGEST_FOLD;

// The layouts row over a listing of k cuts: 10 where there are more than 4,000 lines 7, of which only the first 4,000 are kept; else by their words.
fn answer_listed(
    rows: u32,
    job: &[u16],
    layouts: &[u16],
    plates: &mut [u16],
    cuts: &mut [u16],
    k: CutNumber,
    counts: &mut [u16],
    out: &mut [u8],
) -> usize
    requires listed_lent { ListedLent job.now plates.old cuts.old k.0 }
    requires placements_size_in_bounds { placements_size ≤ length layouts.now }
    requires counts_size_in_bounds { (counts_size ≤ length counts.old) × (longest_fold ≤ length out.old) }
    ensures { (ls : List ℕ) → length ls ≡ words_of_placement * rows → layout_words (job_of job.now) ls ≡ pass → Holds layouts.now (take layouts_size ls) → Answered (layouts_row (body_line job.now) (job_of job.now) (rows_of ls)) job.now ls out.old (length plates.old) (length cuts.old) (length counts.old) result out.new plates.new cuts.new counts.new }
{
    if rows > MOST_ROWS {
        return refuse(plates, cuts, counts, out, Refusal::Total.number(), 0);
    }
    let size = PLACEMENT_WORDS * (rows as usize);
    answer_rows(job, &layouts[..size], plates, cuts, k, counts, out)
}

// The rows after the line row: the job and the model, then the layouts.
fn answer_job(
    rows: u32,
    job: &[u16],
    layouts: &[u16],
    plates: &mut [u16],
    cuts: &mut [u16],
    counts: &mut [u16],
    out: &mut [u8],
) -> usize
    requires longest_job_in_bounds { (longest_job ≤ length job.now) × (placements_size ≤ length layouts.now) }
    requires plates_size_in_bounds { (plates_size ≤ length plates.old) × (cuts_size ≤ length cuts.old) }
    requires counts_size_in_bounds { (counts_size ≤ length counts.old) × (longest_fold ≤ length out.old) }
    ensures { (ws ls : List ℕ) → WholeKept ws ls rows job.now layouts.now → Answered (last_rows ws ls) ws ls out.old (length plates.old) (length cuts.old) (length counts.old) result out.new plates.new cuts.new counts.new }
{
    let head = head_of(job);
    let t = head.sizes;
    let n = head.types;
    if t.0 > MAX_SIZES || n.0 > MAX_TYPES {
        return 0;
    }
    let words = HEAD_WORDS + SIZE_WORDS * (t.0 as usize) + ITEM_WORDS * (n.0 as usize);
    match list(&job[..words], plates, cuts) {
        Err(row) => refuse(plates, cuts, counts, out, row.refusal.number(), row.place),
        Ok(listed) => answer_listed(
            rows,
            &job[..words],
            layouts,
            plates,
            cuts,
            listed.cuts,
            counts,
            out,
        ),
    }
}

// Whether each lent buffer has its full size, and the output room for the longest.
#[tactic(auto, unfolding(crate::specs::FoldEnd::room_to_end))]
pub fn has_room(
    job: usize,
    layouts: usize,
    plates: usize,
    cuts: usize,
    counts: usize,
    out: usize,
) -> bool
    ensures { result ≡ room_to_end job layouts plates cuts counts out }
{
    JOB_SIZE <= job
        && PLACEMENTS_SIZE <= layouts
        && PLATES_SIZE <= plates
        && CUTS_SIZE <= cuts
        && COUNTS_SIZE <= counts
        && LONGEST_FOLD <= out
}

// What is written where a fold text ends, from where it stands and what is kept of it; the number of bytes is handed back.
pub fn end_text(
    text: TextReader,
    rows: u32,
    job: &[u16],
    layouts: &[u16],
    plates: &mut [u16],
    cuts: &mut [u16],
    counts: &mut [u16],
    out: &mut [u8],
) -> usize
    ensures unchanged { room_to_end (length job.now) (length layouts.now) (length plates.old) (length cuts.old) (length counts.old) (length out.old) ≡ false → Unchanged out.old plates.old cuts.old counts.old result out.new plates.new cuts.new counts.new }
    ensures answered { room_to_end (length job.now) (length layouts.now) (length plates.old) (length cuts.old) (length counts.old) (length out.old) ≡ true → (r : Reader Fold) → TextEnds r text rows job.now layouts.now → Answered (text_row fold_grammar r then fold_rows r.state) r.state.job r.state.layouts out.old (length plates.old) (length cuts.old) (length counts.old) result out.new plates.new cuts.new counts.new }
{
    if has_room(
        job.len(),
        layouts.len(),
        plates.len(),
        cuts.len(),
        counts.len(),
        out.len(),
    ) {
        return match fold_row(text) {
            Err(row) => refuse(plates, cuts, counts, out, row.number, row.place),
            Ok(()) => answer_job(rows, job, layouts, plates, cuts, counts, out),
        };
    }
    0
}
