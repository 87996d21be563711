// The boards that are left to be opened, size by size in rising number.
ghost use Rattle.std.specs.Prelude.{◌≡◌, ℕ, ◌+◌, ◌-◌, ◌≤◌, ◌<◌};
ghost use Rattle.job.specs.Job.{Job};
ghost use Rattle.listing.specs.Listing.{Listing};
ghost use Rattle.listing.specs.Model.{Model};
ghost use Rattle.unfold_waiting.specs.Begins.{Begins, PartIn};
ghost use Rattle.unfold_step.specs.Meaning.{spends};
ghost use Rattle.unfold_run.specs.Opening.{OpensFrom};

use job::counters::{BoardSizes, PlateType};
use unfold_waiting::left::boards_left;

// The size whose boards are opened, and how many boards of it are left to be opened.
#[derive(Clone, Copy, Debug, PartialEq, Eq)]
pub struct Remaining {
    pub size: PlateType,
    pub boards: u32,
}

impl Remaining {
    // The boards left of this size after a cut on a plate type: one less where it is this one.
    pub fn after(self, plate: PlateType) -> u32
        requires { spends self.size.0 plate.0 ≤ self.boards }
        ensures { result ≡ self.boards - spends self.size.0 plate.0 }
    {
        if plate == self.size {
            self.boards - 1
        } else {
            self.boards
        }
    }

    // The lowest size that has boards left; where none has, the last size.
    pub fn next(self, sizes: BoardSizes, counts: &[u16], begins: &[u16]) -> Remaining
        requires { (self.size.0 < sizes.0) × ((j : ℕ) → j < sizes.0 → PartIn begins.now counts.now j) }
        ensures opens_from { (job : Job) (l : Listing) → Model job l → Begins l.cuts begins.now → OpensFrom l sizes.0 self counts.now → OpensFrom l sizes.0 result counts.now }
        ensures sizes_bound { result.boards ≡ 0 → sizes.0 ≤ result.size.0 + 1 }
    {
        let mut left = self;
        for j in self.size.0 + 1..sizes.0 {
            if 0 < left.boards {
                return left;
            }
            let size = PlateType(j);
            left = Remaining {
                size,
                boards: boards_left(counts, begins, size),
            };
        }
        left
    }
}
