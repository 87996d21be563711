// 11: what is added up for each item type against its demand.
ghost use Rattle.std.specs.Prelude.{◌≡◌, ◌≤◌, ◌<◌, ltb, length, get_or};
ghost use Rattle.job.specs.Sizes.{job_size, max_types};
ghost use Rattle.job.specs.Verdict.{lowest};
ghost use Rattle.job.specs.Job.{board_sizes, job_of};
ghost use Rattle.job.specs.Refused.{row_verdict};

use crate::counters::ItemType;
use crate::refused::{Refusal, Refused};
use crate::words::item_at;

// 11 for the lowest of n item types whose sum, the word of its number, does not reach its demand.
pub fn types_short(job: &[u16], n: ItemType, sums: &[u16]) -> Result<(), Refused>
    requires { (length job.now ≡ job_size (board_sizes job.now) n.0) × ((n.0 ≤ max_types) × (n.0 < length sums.now)) }
    ensures { row_verdict result ≡ lowest 11 (λ i item. ltb (get_or sums.now i 0) item.demand) 1 (job_of job.now).items }
{
    for i in 1..n.0 + 1 {
        let item = item_at(job, ItemType(i));
        let at = i as usize;
        if sums[at] < item.demand {
            return Err(Refusal::ItemShort.at(at));
        }
    }
    Ok(())
}
