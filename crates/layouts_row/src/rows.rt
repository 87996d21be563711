// The layouts row: 10, 15, 16, 17, 18, then 11.
ghost use Rattle.std.specs.Prelude.{◌≡◌, ◌+◌, ◌^◌, ◌<◌};
ghost use Rattle.job.specs.Verdict.{pass};
ghost use Rattle.job.specs.Refused.{row_verdict};
ghost use Rattle.job.specs.Job.{job_of, job_words};
ghost use Rattle.layouts.specs.Lines.{rows_of, layout_words};
ghost use Rattle.layouts.specs.LayoutsRow.{layouts_row};
ghost use Rattle.layouts_row.specs.RowParts.{strips_row};

use job::refused::{Refusal, Refused};
use job::sizes::{MAX_PIECES, PLACEMENT_WORDS};
use layouts_lines::demands::lacking_row;
use layouts_lines::turns::turns_row;
use layouts_strips::lines::Lines;

// 16 a strip that breaks the stage rule, 17 one that passes the board, both naming its first line; 18 a line that is not the item's position.
fn strip_rows(lines: &Lines, k: usize) -> Result<(), Refused>
    requires { k + lines.now.number < 2 ^ 64 }
    ensures { row_verdict result ≡ strips_row k (job_of lines.now.job.now) (rows_of lines.now.layouts.now) }
{
    lines.stage_row(k)?;
    lines.past_row(k)?;
    lines.positions_row(k)
}

// The layouts row of lines that are numbered from k, once the words of job and layouts have passed: 10 more than 4,000 lines, naming 0; 15 a line
// that is not the next in turn; 16, 17 and 18 of the strips; 11 an item type that lies in the lines less often than demanded, naming the type.
pub fn layouts_row(job: &[u16], layouts: &[u16], k: usize) -> Result<(), Refused>
    requires job_value { (job_words job.now ≡ pass) × (layout_words (job_of job.now) layouts.now ≡ pass) }
    requires k_bound { k < 2 ^ 16 }
    ensures { row_verdict result ≡ layouts_row k (job_of job.now) (rows_of layouts.now) }
{
    let number = layouts.len() / PLACEMENT_WORDS;
    if (MAX_PIECES as usize) < number {
        return Err(Refusal::Total.at(0));
    }
    turns_row(layouts, number, k)?;
    let lines = Lines {
        job,
        layouts,
        number,
    };
    strip_rows(&lines, k)?;
    lacking_row(job, layouts, number)
}
