// The end of a saw text, from what is kept of it to the bytes that are written.
ghost use Rattle.std.specs.Prelude.{List, [], ◌∷◌, ◌≤◌, ◌<◌, length};
ghost use Rattle.std.proofs.Math.Option.{Option};
ghost use Rattle.job.specs.Sizes.{placements_size};
ghost use Rattle.job.specs.Verdict.{◌then◌};
ghost use Rattle.job.specs.Job.{job_of};
ghost use Rattle.listing.specs.Listing.{listing_of};
ghost use Rattle.columns.specs.Line.{line_of};
ghost use Rattle.texts.specs.Widths.{place_limit};
ghost use Rattle.texts.specs.JobLines.{Place, body_line};
ghost use Rattle.texts.specs.Reader.{Reader, text_row};
ghost use Rattle.texts.specs.SawText.{Counted, Saw, saw_of, saw_grammar, saw_rows};
ghost use Rattle.texts.specs.SawText.{PriceLines as Lines456};
ghost use Rattle.saw_text_body.specs.PlanRead.{PlanKept};
ghost use Rattle.saw_text_lines.specs.SawKept.{lent, Room};
ghost use Rattle.texts_writing.specs.Wrote.{Wrote, longest_saw};
ghost use Rattle.saw_text_rows.specs.Tail.{PricesEnd, listed_rows};
ghost use Rattle.saw_text_ending.specs.SawEnd.{ListedLent, Ready, WholeKept, TextEnds, Answered};

use job::counters::{CutNumber, PlateTypes};
use job::head::head_of;
use job::job_read::JobRead;
use job::sizes::{HEAD_WORDS, ITEM_WORDS, SIZE_WORDS};
use job::words::clear;
use plan_test::listed_job::ListedJob;
use saw_text_body::model::Model;
use saw_text_body::plan_lines::PlanLines;
use saw_text_body::price_lines::PriceLines;
use saw_text_lines::held::SawHeld;
use saw_text_rows::line_row::may_end;
use saw_text_rows::plan_part::plan_row_of_text;
use saw_text_rows::price_part::prices_of_text;
use saw_text_rows::unfolding_part::write_plan;
use texts::widths::PLACE_LIMIT;
use texts_reading::line_row::text_row;
use texts_reading::text::TextReader;
use texts_writing::refusal::write_refusal;

// Writes line 9; its end is handed back. A place of more than 32 bits, which no text has, writes nothing.
pub fn refuse(out: &mut [u8], number: u16, place: usize) -> usize
    requires { longest_saw ≤ length out.old }
    ensures { place < place_limit → Wrote out.old 0 (line_of (9 ∷ number ∷ place ∷ [])) result out.new }
{
    if place >= PLACE_LIMIT {
        return 0;
    }
    write_refusal(out, number, place)
}

// The plan row and the prices row by a listing of m plate types and k cuts, then the unfolding: lines 7 and line 8, or line 9.
pub fn answer_listed(
    plan: PlanLines,
    lines: PriceLines,
    job: &[u16],
    plates: &[u16],
    cuts: &[u16],
    m: PlateTypes,
    k: CutNumber,
    counts: &[u16],
    prices: &[u16],
    placements: &mut [u16],
    out: &mut [u8],
) -> usize
    requires listed_lent { ListedLent job.now plates.now cuts.now m.0 k.0 }
    requires ready { Ready counts.now prices.now placements.old out.old }
    ensures { (place : Place) (rs : List Counted) (o : Option Lines456) → PlanKept (listing_of (job_of job.now)) (body_line job.now) rs plan counts.now → PricesEnd o lines prices.now → Answered (listed_rows (saw_of place job.now rs o)) (saw_of place job.now rs o) out.old placements.old result out.new placements.new }
{
    let listed = ListedJob {
        job: JobRead::new(job),
        cuts,
        plates: m,
        last: k,
    };
    match plan_row_of_text(plan, &listed, counts) {
        Err(refused) => refuse(out, refused.refusal.number(), refused.place),
        Ok(opening) => match prices_of_text(lines, &listed, prices) {
            Err(unpriced) => refuse(out, unpriced.refusal.number(), unpriced.place),
            Ok(bound) => write_plan(
                job,
                counts,
                plates,
                cuts,
                k,
                opening.cost,
                bound.sum,
                bound.d,
                placements,
                out,
            ),
        },
    }
}

// The rows after the line row, by the model that is kept: lines 7 and line 8, or line 9.
fn answer_job(
    held: SawHeld,
    job: &[u16],
    plates: &[u16],
    cuts: &[u16],
    counts: &[u16],
    prices: &[u16],
    placements: &mut [u16],
    out: &mut [u8],
) -> usize
    requires room { Room (lent job.now plates.now cuts.now counts.now prices.now) }
    requires whole_kept { (s : Saw) × WholeKept s held (lent job.now plates.now cuts.now counts.now prices.now) }
    requires ready { Ready counts.now prices.now placements.old out.old }
    ensures { (s : Saw) → WholeKept s held (lent job.now plates.now cuts.now counts.now prices.now) → Answered (saw_rows s) s out.old placements.old result out.new placements.new }
{
    match held.model {
        Model::Refused(number, place) => refuse(out, number, place),
        Model::Listed(m, k) => {
            let head = head_of(job);
            let words = HEAD_WORDS
                + SIZE_WORDS * (head.sizes.0 as usize)
                + ITEM_WORDS * (head.types.0 as usize);
            answer_listed(
                held.plan,
                held.prices,
                &job[..words],
                plates,
                cuts,
                m,
                k,
                counts,
                prices,
                placements,
                out,
            )
        }
    }
}

// What is written where a saw text ends, from where it stands and what is kept of it; the number of bytes is handed back.
pub fn end_text(
    text: TextReader,
    held: SawHeld,
    job: &[u16],
    plates: &[u16],
    cuts: &[u16],
    counts: &[u16],
    prices: &[u16],
    placements: &mut [u16],
    out: &mut [u8],
) -> usize
    requires text_ends { (r : Reader Saw) × TextEnds r text held (lent job.now plates.now cuts.now counts.now prices.now) }
    requires placements_size_in_bounds { (placements_size ≤ length placements.old) × (longest_saw ≤ length out.old) }
    ensures { (r : Reader Saw) → TextEnds r text held (lent job.now plates.now cuts.now counts.now prices.now) → Answered (text_row saw_grammar r then saw_rows r.state) r.state out.old placements.old result out.new placements.new }
{
    clear(placements);
    match text_row(text, may_end(text.place)) {
        Err(refused) => refuse(out, refused.number, refused.place),
        Ok(()) => answer_job(held, job, plates, cuts, counts, prices, placements, out),
    }
}
