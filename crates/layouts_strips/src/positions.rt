// Refusal 18: a line whose x or y is not the item's position.
ghost use Rattle.std.specs.Prelude.{◌≡◌, ◌+◌, ◌<◌, ◌^◌};
ghost use Rattle.job.specs.Refused.{row_verdict};
ghost use Rattle.job.specs.Job.{job_of};
ghost use Rattle.layouts.specs.Placement.{lines_of};
ghost use Rattle.layouts.specs.Lines.{rows_of, grouped};
ghost use Rattle.layouts.specs.LayoutsRow.{positioned};

use crate::lines::Lines;
use crate::spot::Spot;
use job::refused::{Refusal, Refused};
use placement::placement_at;

impl Lines<'_> {
    // 18 for the lowest line whose x or y is not the item's position; lines are numbered from k.
    pub fn positions_row(&self, k: usize) -> Result<(), Refused>
        requires { k + self.now.number < 2 ^ 64 }
        ensures { row_verdict result ≡ positioned k (rows_of self.now.layouts.now) (lines_of (job_of self.now.job.now) (grouped (rows_of self.now.layouts.now))) }
    {
        let mut spot = Spot {
            x: 0,
            y: 0,
            base: 0,
            width: 0,
            above: 0,
        };
        for c in 0..self.number {
            let line = placement_at(self.layouts, c);
            if (line.x as u32, line.y as u32) != (spot.x, spot.y) {
                return Err(Refusal::Position.at(k + c));
            }
            spot = self.next_spot(c, spot);
        }
        Ok(())
    }
}
