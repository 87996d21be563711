// From which side on a plate is kept: the least of the sides of the items that can be cut from one of its stage and of its other side.
ghost use Rattle.std.specs.Prelude.{◌≡◌};
ghost use Rattle.job.specs.Job.{job_of};
ghost use Rattle.listing_positions.specs.Least.{along, asks, lower, least_of};

use job::counters::ItemPosition;
use job::item::Position;
use job::job_read::JobRead;
use job::mode::Mode;
use listing::plate::{Plate, may_cut};

// What stands for the least side where no item can be cut.
const NONE: u16 = 65535;

// Of two sides the one that cuts of a plate of this stage divide: the width at stage 2, else the height.
#[tactic(auto, unfolding(crate::specs::Least::along))]
fn along(stage: u16, width: u16, height: u16) -> u16
    ensures { result ≡ along stage width height }
{
    if stage == 2 { width } else { height }
}

// Whether an item may be cut from a plate of this stage and other side that is as long as the item.
#[tactic(auto, unfolding(crate::specs::Least::asks))]
fn asks(mode: Mode, p: Plate, item: Position) -> bool
    ensures { result ≡ asks mode p item }
{
    if p.stage == 2 {
        return may_cut(
            mode,
            item,
            Plate {
                width: item.width,
                ..p
            },
        );
    }
    may_cut(
        mode,
        item,
        Plate {
            height: item.height,
            ..p
        },
    )
}

// The lesser of two sides, if the second is asked for.
#[tactic(auto, unfolding(crate::specs::Least::lower))]
fn lowered(least: u16, asked: bool, side: u16) -> u16
    ensures { result ≡ lower least asked side }
{
    if asked { least.min(side) } else { least }
}

// The least side from which a plate of this stage and other side is kept, `NONE` where none is.
#[tactic(auto, unfolding(job::specs::Job::type_of))]
pub fn least_side(job: &JobRead, p: Plate) -> u16
    ensures { result ≡ least_of (job_of job.now.words.now) p }
{
    let mut least = NONE;
    for q in 2..2 * job.head.types.0 + 2 {
        let item = job.position(ItemPosition(q));
        let asked = asks(job.head.mode, p, item);
        let side = along(p.stage, item.width, item.height);
        least = lowered(least, asked, side);
    }
    least
}
