// The boards of a size that the counts open: the counts of its cuts added up.
ghost use Rattle.std.specs.Prelude.{◌≡◌, ◌≤◌, length};
ghost use Rattle.job.specs.Job.{Job};
ghost use Rattle.listing.specs.Listing.{Listing};
ghost use Rattle.listing.specs.Model.{Model};
ghost use Rattle.plan.specs.Plan.{boards_of, total};
ghost use Rattle.unfold_waiting.specs.Begins.{Begins, PartIn};

use job::counters::PlateType;

// The counts of a part, added up in 32 bits, which hold those of all cuts.
fn sum_of(part: &[u16]) -> u32
    requires { length part.now ≤ 65535 }
    ensures { result ≡ total part.now }
{
    let mut sum: u32 = 0;
    for &n in part {
        sum += n as u32;
    }
    sum
}

// The boards of size j that the counts open: those of its part are added up, and no other count is read.
pub fn boards_left(counts: &[u16], begins: &[u16], j: PlateType) -> u32
    requires { PartIn begins.now counts.now j.0 }
    ensures { (job : Job) (l : Listing) → Model job l → Begins l.cuts begins.now → result ≡ boards_of l j.0 counts.now }
{
    let at = j.0 as usize;
    let from = begins[at] as usize;
    let to = begins[at + 1] as usize;
    sum_of(&counts[from..to])
}
