// The boards that a plan opens and what they cost, by the counts on each size.
ghost use Rattle.std.specs.Prelude.{◌≡◌, ℕ, ◌*◌, ◌≤◌, ◌<◌, length, get_or};
ghost use Rattle.job.specs.Sizes.{max_sizes, max_pieces, words_before};
ghost use Rattle.job.specs.Job.{board_sizes, job_of, size_at};
ghost use Rattle.plan_test.specs.Sums.{sum_below};

use job::counters::{BoardSizes, PlateType};
use job::size::Size;
use job::words::size_at;

// How many boards are opened, and what they cost together.
#[derive(Clone, Copy, Debug, PartialEq, Eq)]
pub struct Opening {
    pub boards: u16,
    pub cost: u32,
}

// What n boards of a size cost.
fn cost_of(size: Size, n: u16) -> u32
    ensures { (result ≡ size.cost * n) × (result ≤ 65535 * n) }
{
    (size.cost as u32) * (n as u32)
}

// Adds up the boards of the sizes, which `on` has at their numbers, and what they cost.
pub fn boards_opened(job: &[u16], sizes: BoardSizes, on: &[u16]) -> Opening
    requires job_value { (board_sizes job.now ≡ sizes.0) × ((words_before sizes.0 ≤ length job.now) × ((sizes.0 ≤ max_sizes) × (sizes.0 ≤ length on.now))) }
    requires by_index { (j : ℕ) → j < sizes.0 → get_or on.now j 0 ≤ max_pieces }
    ensures boards_value { result.boards ≡ sum_below (λ j. get_or on.now j 0) sizes.0 }
    ensures cost_value { result.cost ≡ sum_below (λ j. (size_at (job_of job.now) j).cost * get_or on.now j 0) sizes.0 }
{
    let mut boards: u16 = 0;
    let mut cost: u32 = 0;
    for j in 0..sizes.0 {
        let size = size_at(job, PlateType(j));
        let n = on[j as usize];
        cost += cost_of(size, n);
        boards += n;
    }
    Opening { boards, cost }
}
