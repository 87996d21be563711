// A job with the cuts of its listing, as the code reads them once the job is listed.
ghost use Rattle.std.specs.Prelude.{◌≡◌, ◌-◌, ◌≤◌};
ghost use Rattle.listing.specs.CutRead.{cut_in, cut_read, Lent};

use job::counters::{CutNumber, PlateTypes};
use job::job_read::JobRead;
use listing::cut::{CutRecord, cut_at};

// The job, the words of its cuts, the number of its plate types, the sizes among them, and that of its last cut.
#[derive(Clone, Copy)]
pub struct ListedJob<'a> {
    pub job: JobRead<'a>,
    pub cuts: &'a [u16],
    pub plates: PlateTypes,
    pub last: CutNumber,
    ghost lent: { Lent job.words.now cuts.now job.head.sizes.0 job.head.types.0 plates.0 last.0 },
}

impl<'a> ListedJob<'a> {
    // The cut of a number.
    pub fn cut(&self, c: CutNumber) -> CutRecord
        requires from_one { 1 ≤ c.0 }
        requires within { c.0 ≤ self.now.last.0 }
        ensures { cut_in result ≡ cut_read self.now.cuts.now (c.0 - 1) }
    {
        cut_at(self.cuts, c)
    }
}
