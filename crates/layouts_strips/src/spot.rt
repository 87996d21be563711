// Where the item of a line has to lie.
ghost use Rattle.std.specs.Prelude.{◌≡◌, ◌+◌, ◌*◌, ◌≤◌, ◌<◌, ◌^◌, drop};
ghost use Rattle.job.specs.Sizes.{max_pieces};
ghost use Rattle.job.specs.Job.{job_of, position_at};
ghost use Rattle.layouts.specs.Lines.{rows_of, begun};
ghost use Rattle.placement.specs.PlacementRead.{placement_at};
ghost use Rattle.layouts_strips.specs.Begun.{level_in};
ghost use Rattle.layouts_strips.specs.Measures.{max_step};
ghost use Rattle.layouts_strips.specs.Spots.{put_on, moved_to, SpotSmall};

use crate::begins::Begins;
use crate::lines::Lines;
use job::head::head_of;
use job::item::Position;

// The position of the next item of a stack; the strip's lower edge, the stack's width so far, and the lower edge of the next strip so far.
#[derive(Clone, Copy, Debug, PartialEq, Eq)]
pub struct Spot {
    pub x: u32,
    pub y: u32,
    pub base: u32,
    pub width: u32,
    pub above: u32,
}

// What is known after an item lies there: the next item of its stack, and the next strip, lie a blade's width above it or higher.
fn put(spot: Spot, item: Position, blade: u16) -> Spot
    requires { spot.y ≤ max_step * max_pieces }
    ensures { result ≡ put_on blade spot item }
{
    let high = spot.y + item.height as u32 + blade as u32;
    Spot {
        y: high,
        width: spot.width.max(item.width as u32),
        above: spot.above.max(high),
        ..spot
    }
}

// The spot at the next place, stack, strip or board; a stack lies a blade's width beside the one before it.
fn moved(spot: Spot, begins: Begins, blade: u16) -> Spot
    requires { spot.x + spot.width + blade < 2 ^ 32 }
    ensures { result ≡ moved_to blade (level_in begins) spot }
{
    match begins {
        Begins::Place => spot,
        Begins::Stack => Spot {
            x: spot.x + spot.width + blade as u32,
            y: spot.base,
            base: spot.base,
            width: 0,
            above: spot.above,
        },
        Begins::Strip => Spot {
            x: 0,
            y: spot.above,
            base: spot.above,
            width: 0,
            above: spot.above,
        },
        Begins::Board => Spot {
            x: 0,
            y: 0,
            base: 0,
            width: 0,
            above: 0,
        },
    }
}

impl Lines<'_> {
    // The spot of the line after the one behind c others, whose item lies at a spot.
    pub fn next_spot(&self, c: usize, spot: Spot) -> Spot
        requires { (c < self.now.number) × (SpotSmall c spot) }
        ensures { (result ≡ moved_to (job_of self.now.job.now).blade (begun (drop (c + 1) (rows_of self.now.layouts.now))) (put_on (job_of self.now.job.now).blade spot (position_at (job_of self.now.job.now) (placement_at self.now.layouts.now c).item))) × (SpotSmall (c + 1) result) }
    {
        let head = head_of(self.job);
        let item = self.item_of(c);
        let placed = put(spot, item, head.blade);
        let next = self.begins_at(c + 1);
        moved(placed, next, head.blade)
    }
}
