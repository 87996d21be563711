// The checks of folding that come before its buffers: the line row of the job's words and of the layout words, and then the job row.
ghost use Rattle.std.specs.Prelude.{◌≡◌};
ghost use Rattle.job.specs.Verdict.{◌then◌};
ghost use Rattle.job.specs.Refused.{row_verdict};
ghost use Rattle.job.specs.Job.{job_of, job_words, admission};
ghost use Rattle.layouts.specs.Lines.{layout_words};

use job::admit::{admit, job_words};
use job::refused::Refused;
use layouts_lines::limits::layout_words;

// 1 and 2 of the job's words; 1, 2 and 19 of the layout words, naming the line; 3 and 4 of the job.
pub fn layout_checks(job: &[u16], layouts: &[u16]) -> Result<(), Refused>
    ensures { row_verdict result ≡ (job_words job.now then layout_words (job_of job.now) layouts.now then admission (job_of job.now)) }
{
    job_words(job)?;
    layout_words(job, layouts)?;
    admit(job)
}
