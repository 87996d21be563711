// The lines 3 that stand whole in a part, one after another: only what they change is moved.
ghost use Rattle.std.specs.Prelude.{IfSome, ◌≡◌, List, ℕ, ◌≤◌, length};
ghost use Rattle.job.specs.Sizes.{max_types, max_cuts, words_of_head, longest_job, plates_size, cuts_size, counts_size};
ghost use Rattle.texts.specs.Reader.{max_lines};
ghost use Rattle.texts.specs.JobLines.{types_of};
ghost use Rattle.texts_reading.specs.Standing.{TextReady};
ghost use Rattle.saw_text_lines.specs.SawKept.{lent};
ghost use Rattle.saw_text_reader.specs.Onward.{ReadOn};
ghost use Rattle.saw_text_reader.specs.BodyRun.{in_body, InBody, WholeWords, Ran};

use crate::saw::SawReader;
use crate::whole::LinesRead;
use columns::line::complete_line;
use columns::widths::{GROUP, MOST_NUMBERS};
use job::counters::CutNumber;
use job::head::head_of;
use job::sizes::{HEAD_WORDS, ITEM_WORDS, MAX_CUTS, MAX_SIZES, MAX_TYPES, SIZE_WORDS};
use saw_text_body::model::Model;
use saw_text_body::plan_lines::PlanLines;
use saw_text_lines::held::{SawHeld, plan_numbers};
use texts::widths::MAX_LINES;
use texts_reading::kinds::plan_line;
use texts_reading::text::{Place, TextReader};

// The lines 3 after some more of them, the lines of the text, and where the next begins in the part.
#[derive(Clone, Copy, Debug, PartialEq, Eq)]
pub struct Run {
    pub plan: PlanLines,
    pub lines: u32,
    pub at: usize,
}

// The lines 3 from `from` on that are of the form, end in the part and are admitted, by the k cuts of a listing.
fn plan_run(
    first: PlanLines,
    k: CutNumber,
    before: u32,
    part: &[u8],
    from: usize,
    job: &[u16],
    plates: &[u16],
    cuts: &[u16],
    counts: &mut [u16],
) -> Run
    requires from_in_bounds { (from ≤ length part.now) × (before ≤ max_lines) }
    requires words_of_head_in_bounds { (words_of_head ≤ length job.now) × (types_of job.now ≤ max_types) }
    requires k_le_max_cuts { (k.0 ≤ max_cuts) × ((plates_size ≤ length plates.now) × ((cuts_size ≤ length cuts.now) × (counts_size ≤ length counts.old))) }
    ensures { Ran part.now from job.now plates.now cuts.now k first before counts.old result counts.new }
{
    let mut plan = first;
    let mut lines = before;
    let mut at = from;
    while at < part.len() {
        if lines >= MAX_LINES {
            return Run { plan, lines, at };
        }
        let mut numbers = [0u32; MOST_NUMBERS];
        let Some(g) = complete_line(part, at, &mut numbers) else {
            return Run { plan, lines, at };
        };
        let Ok(()) = plan_line(&numbers[..g], job) else {
            return Run { plan, lines, at };
        };
        let here = plan_numbers(&numbers[..g]);
        lines += 1;
        plan = plan.more(lines, here, plates, cuts, k, counts);
        at = at + GROUP * g + 1;
    }
    Run { plan, lines, at }
}

// The cuts of a job, where it is listed, lines 3 come next and no line has begun or is refused.
fn cuts_of(reader: SawReader) -> Option<CutNumber>
    ensures { IfSome result (λ k. InBody reader k) }
{
    let Place::Body = reader.text.place else {
        return None;
    };
    let Model::Listed(_, k) = reader.held.model else {
        return None;
    };
    if reader.text.refusal != 0 || reader.text.pending.length != 0 || MAX_CUTS < k.0 {
        return None;
    }
    Some(k)
}

// How many words a job has by its head, where that gives no more sizes and types than a job has.
fn words_of(job: &[u16]) -> Option<usize>
    requires { words_of_head ≤ length job.now }
    ensures { IfSome result (λ words. WholeWords job.now words) }
{
    let head = head_of(job);
    let n = head.types;
    let t = head.sizes;
    if MAX_TYPES < n.0 || MAX_SIZES < t.0 {
        return None;
    }
    Some(HEAD_WORDS + SIZE_WORDS * (t.0 as usize) + ITEM_WORDS * (n.0 as usize))
}

impl SawReader {
    // The state of a text in its body after more lines 3.
    fn in_body(self, plan: PlanLines, lines: u32) -> SawReader
        ensures { result ≡ in_body self plan lines }
    {
        SawReader {
            text: TextReader {
                place: Place::Body,
                lines,
                refusal: 0,
                ..self.text
            },
            held: SawHeld { plan, ..self.held },
        }
    }

    // Lines 3 that come next and stand whole in the part, taken where the job is listed; where none is taken nothing changes.
    pub fn body(
        self,
        part: &[u8],
        from: usize,
        job: &[u16],
        plates: &[u16],
        cuts: &[u16],
        counts: &mut [u16],
    ) -> LinesRead
        requires from_in_bounds { (from ≤ length part.now) × TextReady self.text }
        requires longest_job_in_bounds { (longest_job ≤ length job.now) × ((plates_size ≤ length plates.now) × ((cuts_size ≤ length cuts.now) × (counts_size ≤ length counts.old))) }
        ensures { (prices : List ℕ) → ReadOn part.now from self (lent job.now plates.now cuts.now counts.old prices) result.at result.reader (lent job.now plates.now cuts.now counts.new prices) }
    {
        let (Some(k), Some(words)) = (cuts_of(self), words_of(job)) else {
            return LinesRead {
                reader: self,
                at: from,
            };
        };
        let run = plan_run(
            self.held.plan,
            k,
            self.text.lines,
            part,
            from,
            &job[..words],
            plates,
            cuts,
            counts,
        );
        LinesRead {
            reader: self.in_body(run.plan, run.lines),
            at: run.at,
        }
    }
}
