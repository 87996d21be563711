// The words of a job with its head, as the code reads them once the line row has passed.
ghost use Rattle.std.specs.Prelude.{◌≡◌, ◌≤◌, ◌<◌};
ghost use Rattle.job.specs.Verdict.{pass};
ghost use Rattle.job.specs.Job.{job_of, size_at, position_at, type_of, job_words};
ghost use Rattle.job.specs.Head.{HeadOf};
ghost use Rattle.job.specs.JobWords.{JobWords};

use crate::counters::{ItemPosition, PlateType};
use crate::head::{Head, head_of};
use crate::item::Position;
use crate::position::position_at;
use crate::size::Size;
use crate::words;

// The words, and what their head says of them.
#[derive(Clone, Copy)]
pub struct JobRead<'a> {
    pub words: &'a [u16],
    pub head: Head,
    ghost read: { JobWords words.now head.mode head.sizes.0 head.types.0 },
    ghost blade: { head.blade ≡ (job_of words.now).blade },
}

impl<'a> JobRead<'a> {
    // The job of words that have passed the line row.
    pub fn new(words: &'a [u16]) -> JobRead<'a>
        requires { job_words words.now ≡ pass }
        ensures words_same { result.words.now ≡ words.now }
        ensures head { HeadOf words.now result.head }
    {
        JobRead {
            words,
            head: head_of(words),
        }
    }

    // The board size of a number.
    pub fn size(&self, j: PlateType) -> Size
        requires { j.0 < self.now.head.sizes.0 }
        ensures { result ≡ size_at (job_of self.now.words.now) j.0 }
    {
        words::size_at(self.words, j)
    }

    // The item type and the turn of a number.
    pub fn position(&self, q: ItemPosition) -> Position
        requires from_one { 1 ≤ type_of q.0 }
        requires within { type_of q.0 ≤ self.now.head.types.0 }
        ensures { result ≡ position_at (job_of self.now.words.now) q.0 }
    {
        position_at(self.words, q)
    }
}
