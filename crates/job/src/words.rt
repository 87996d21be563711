// The words of a job and of a lent buffer.
ghost use Rattle.std.specs.Prelude.{◌≡◌, ◌≤◌, ◌<◌, length, replicate};
ghost use Rattle.job.specs.Sizes.{words_before, job_size};
ghost use Rattle.job.specs.Job.{board_sizes, job_of, size_at, item_at};

use crate::counters::{ItemType, PlateType};
use crate::item::Item;
use crate::size::Size;
use crate::sizes::{HEAD_WORDS, ITEM_WORDS, SIZE_WORDS, SIZES};

// The board size of a number, whose words the job has.
pub fn size_at(job: &[u16], j: PlateType) -> Size
    requires { (j.0 < board_sizes job.now) × (words_before (board_sizes job.now) ≤ length job.now) }
    ensures { result ≡ size_at (job_of job.now) j.0 }
{
    let at = HEAD_WORDS + SIZE_WORDS * (j.0 as usize);
    Size {
        width: job[at],
        height: job[at + 1],
        cost: job[at + 2],
    }
}

// The item type of a number, whose words the job has.
pub fn item_at(job: &[u16], i: ItemType) -> Item
    requires { (1 ≤ i.0) × (job_size (board_sizes job.now) i.0 ≤ length job.now) }
    ensures { result ≡ item_at (job_of job.now) i.0 }
{
    let sizes = job[SIZES];
    let at = HEAD_WORDS + SIZE_WORDS * (sizes as usize) + ITEM_WORDS * (i.0 as usize - 1);
    Item {
        width: job[at],
        height: job[at + 1],
        demand: job[at + 2],
        leave: job[at + 3],
    }
}

// Every word 0.
pub fn clear(buffer: &mut [u16])
    ensures { buffer.new ≡ replicate (length buffer.old) 0 }
{
    buffer.fill(0);
}
