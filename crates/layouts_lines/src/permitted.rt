// 19: an item is turned that is square or has no leave (request One).
ghost use Rattle.std.specs.Prelude.{◌≡◌, not, ◌*◌, length};
ghost use Rattle.job.specs.Sizes.{words_of_placement};
ghost use Rattle.job.specs.Verdict.{pass, lowest};
ghost use Rattle.job.specs.Refused.{row_verdict};
ghost use Rattle.job.specs.Job.{job_of, job_words, permitted};
ghost use Rattle.layouts.specs.Lines.{rows_of};
ghost use Rattle.layouts_lines.specs.LineSums.{OfTypes};

use job::position::position_at;
use job::refused::{Refusal, Refused};
use placement::placement_at;

// 19 for the lowest line whose item lies in a position that is not permitted, once every line is within its limits.
pub fn permitted_row(job: &[u16], layouts: &[u16], lines: usize) -> Result<(), Refused>
    requires job_value { job_words job.now ≡ pass }
    requires layouts_len { (length layouts.now ≡ words_of_placement * lines) × (OfTypes (length (job_of job.now).items) lines layouts.now) }
    ensures { row_verdict result ≡ lowest 19 (λ _ line. not (permitted (job_of job.now) line.item)) 1 (rows_of layouts.now) }
{
    for c in 0..lines {
        let line = placement_at(layouts, c);
        let position = position_at(job, line.position());
        if !position.allowed {
            return Err(Refusal::TurnedWithoutLeave.at(c + 1));
        }
    }
    Ok(())
}
