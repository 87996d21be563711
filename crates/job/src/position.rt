// An item in a position: unturned, or turned by 90 degrees.
ghost use Rattle.std.specs.Prelude.{◌≡◌, ◌≤◌, length};
ghost use Rattle.job.specs.Sizes.{job_size};
ghost use Rattle.job.specs.Job.{board_sizes, job_of, unturned, turned, type_of, position_at};

use crate::counters::{ItemPosition, ItemType};
use crate::item::{Item, Position};
use crate::words::item_at;

// An item type unturned, which is always permitted.
pub fn unturned(item: Item) -> Position
    ensures { result ≡ unturned item }
{
    Position {
        width: item.width,
        height: item.height,
        allowed: true,
    }
}

// An item type turned: its width and height change places. It needs leave, and a square item has no turned position.
pub fn turned(item: Item) -> Position
    ensures { result ≡ turned item }
{
    Position {
        width: item.height,
        height: item.width,
        allowed: item.leave == 1 && item.width != item.height,
    }
}

// The item type and the turn of a number, whose words the job has.
pub fn position_at(job: &[u16], q: ItemPosition) -> Position
    requires { (1 ≤ type_of q.0) × (job_size (board_sizes job.now) (type_of q.0) ≤ length job.now) }
    ensures { result ≡ position_at (job_of job.now) q.0 }
{
    let number = q.0;
    let item = item_at(job, ItemType(number / 2));
    if number % 2 == 0 {
        return unturned(item);
    }
    turned(item)
}
