// The line row of layout words: 1 a line cut short, 2 a value outside its limits, and then 19.
ghost use Rattle.std.specs.Prelude.{◌≡◌, not, ◌*◌, length};
ghost use Rattle.job.specs.Sizes.{words_of_placement};
ghost use Rattle.job.specs.Verdict.{pass, lowest};
ghost use Rattle.job.specs.Refused.{row_verdict};
ghost use Rattle.job.specs.Job.{Job, job_of, job_words};
ghost use Rattle.layouts.specs.Lines.{lines_in, row_right, layout_words};
ghost use Rattle.placement.specs.PlacementRead.{placement_in, line_in};
ghost use Rattle.layouts_lines.specs.Limits.{turn_right};

use crate::permitted::permitted_row;
use job::admit::within;
use job::counters::{BoardSizes, ItemType};
use job::head::head_of;
use job::refused::{Refusal, Refused};
use job::sizes::{MAX_PIECES, MAX_SIDE, PLACEMENT_WORDS};
use placement::{Placement, placement_at};

// Whether board, strip, stack and place are within their limits.
fn turn_right(line: Placement) -> bool
    ensures { result ≡ turn_right (placement_in line).turn }
{
    within(1, MAX_PIECES, line.board)
        && within(1, MAX_PIECES, line.strip)
        && within(1, MAX_PIECES, line.stack)
        && within(1, MAX_PIECES, line.place)
}

// Whether the numbers of a line are within their limits, for t sizes and n item types.
#[tactic(auto, unfolding(layouts::specs::Lines::row_right))]
fn line_right(line: Placement, t: BoardSizes, n: ItemType) -> bool
    ensures { (job : Job) → length job.sizes ≡ t.0 → length job.items ≡ n.0 → result ≡ row_right job (line_in line) }
{
    turn_right(line)
        && within(1, n.0, line.item.0)
        && within(0, MAX_SIDE, line.x)
        && within(0, MAX_SIDE, line.y)
        && within(0, 1, line.turned)
        && line.size.0 < t.0
}

// 2 for the lowest line with a number outside its limits, for t sizes and n item types.
fn lines_right(layouts: &[u16], lines: usize, t: BoardSizes, n: ItemType) -> Result<(), Refused>
    requires { length layouts.now ≡ words_of_placement * lines }
    ensures { (job : Job) → length job.sizes ≡ t.0 → length job.items ≡ n.0 → row_verdict result ≡ lowest 2 (λ _ line. not (row_right job line)) 1 (lines_in layouts.now) }
{
    for c in 0..lines {
        let line = placement_at(layouts, c);
        if !line_right(line, t, n) {
            return Err(Refusal::Limits.at(c + 1));
        }
    }
    Ok(())
}

// The line row of layout words, once the job's words have passed; all three refusals name the line, from 1.
pub fn layout_words(job: &[u16], layouts: &[u16]) -> Result<(), Refused>
    requires { job_words job.now ≡ pass }
    ensures { row_verdict result ≡ layout_words (job_of job.now) layouts.now }
{
    let head = head_of(job);
    let lines = layouts.len() / PLACEMENT_WORDS;
    if layouts.len() % PLACEMENT_WORDS != 0 {
        return Err(Refusal::Form.at(lines + 1));
    }
    lines_right(layouts, lines, head.sizes, head.types)?;
    permitted_row(job, layouts, lines)
}
