// The walk: plate types in rising number, at each the item types in rising number, each unturned and then turned.
ghost use Rattle.std.specs.Prelude.{◌≡◌, true, ◌+◌, OnErr};
ghost use Rattle.job.specs.Job.{job_of, permitted};
ghost use Rattle.listing.specs.Listing.{walk_start, walk};
ghost use Rattle.listing_positions.specs.Least.{least_of};
ghost use Rattle.listing_call.specs.Steps.{Room, Ready, Rep, Stands, top_from, right_from, rest_walk, rest_row, went, Goes, Stepped};

use crate::entry::enter;
use crate::sizes::put_leasts;
use job::counters::{CutNumber, ItemPosition, PlateType, PlateTypes};
use job::job_read::JobRead;
use job::mode::Mode;
use job::refused::Refusal;
use job::sizes::{MAX_CUTS, MAX_PLATES};
use listing::plate::{Plate, cut_leaves, may_cut};
use listing::words::{plate_at, put_cut};
use listing_index::index::INDEX_SIZE;
use listing_positions::table::{Leasts, TABLE_SIZE, learn, leasts_at, lying_at, next_at};

// The numbers of plate types and cuts so far.
#[derive(Clone, Copy, Debug, PartialEq, Eq)]
pub struct Listed {
    pub plates: PlateTypes,
    pub cuts: CutNumber,
}

// From which sides on the residuals of a cut are kept, by the stage and the least side of its plate and by the least sides of its item's position.
#[tactic(auto, unfolding(crate::specs::Steps::top_from, crate::specs::Steps::right_from))]
fn leasts_left(mode: Mode, stage: u16, least: u16, lying: Leasts) -> Leasts
    ensures { (result.top ≡ top_from stage least lying.top) × (result.right ≡ right_from mode stage least lying.right) }
{
    match (stage, mode.three()) {
        (1, _) => Leasts {
            top: least,
            ..lying
        },
        (_, true) => Leasts {
            right: least,
            ..lying
        },
        _ => lying,
    }
}

// The pair of plate type j, which is `plate` and has this least side, and an item in position i: if it may be cut, it becomes the next cut, and its residuals
// are entered. The numbers of plate types and cuts so far are counted in place: most pairs may not be cut and move none of them. A refusal leaves them as they were.
// Words, mode and blade in place of a `JobRead`: what may not change (`pair_step`, which docs/requests/01-turned-items.md names).
pub fn pair_step(
    job: &[u16],
    mode: Mode,
    blade: u16,
    table: &[u16],
    plates: &mut [u16],
    index: &mut [u16],
    leasts: &mut [u16],
    cuts: &mut [u16],
    at: &mut Listed,
    j: PlateType,
    plate: Plate,
    least: u16,
    i: ItemPosition,
) -> Result<(), Refusal>
    requires ready { Ready job.now mode blade table.now plates.old index.old leasts.old cuts.old }
    requires i_value { (permitted (job_of job.now) i.0 ≡ true) × (least ≡ least_of (job_of job.now) plate) }
    requires stands { Stands (job_of job.now) (rest_row (job_of job.now) j.0 plate i.0) plates.old index.old leasts.old cuts.old at.old.plates.0 at.old.cuts.0 }
    ensures goes { Goes (job_of job.now) (rest_row (job_of job.now) j.0 plate (i.0 + 1)) (went result at.new) plates.new index.new leasts.new cuts.new }
    ensures kept { OnErr result (at.new ≡ at.old) }
{
    let item = lying_at(table, i);
    if !may_cut(mode, item, plate) {
        return Ok(());
    }
    let done = at.cuts.0;
    if MAX_CUTS <= done {
        return Err(Refusal::CutsMany);
    }
    let left = cut_leaves(mode, blade, item, plate);
    let top = left.top;
    let right = left.right;
    let from = leasts_left(mode, plate.stage, least, leasts_at(table, i));
    let t = enter(plates, index, leasts, at.plates, top, top.height, from.top)?;
    let r = enter(
        plates,
        index,
        leasts,
        t.plates,
        right,
        right.width,
        from.right,
    )?;
    put_cut(cuts, at.cuts, j, i, t.number, r.number);
    *at = Listed {
        plates: r.plates,
        cuts: CutNumber(done + 1),
    };
    Ok(())
}

// The plate types in rising number, at each the permitted positions in rising number; both loops are left when a 2,049th plate type or an 8,193rd cut is met.
fn walk_rows(
    job: &JobRead,
    table: &[u16],
    plates: &mut [u16],
    index: &mut [u16],
    leasts: &mut [u16],
    cuts: &mut [u16],
) -> Result<Listed, Refusal>
    requires ready { Ready job.now.words.now job.now.head.mode job.now.head.blade table.now plates.old index.old leasts.old cuts.old }
    requires stands { Stands (job_of job.now.words.now) (rest_walk (job_of job.now.words.now) 0) plates.old index.old leasts.old cuts.old job.now.head.sizes.0 0 }
    ensures { Stepped (job_of job.now.words.now) (walk (job_of job.now.words.now)) result plates.new cuts.new }
{
    let head = job.head;
    let last = 2 * head.types.0 + 1;
    let mut at = Listed {
        plates: PlateTypes(head.sizes.0),
        cuts: CutNumber(0),
    };
    let mut j: u16 = 0;
    // By hand and left by its label: a rule of the project (docs/DECISIONS.md 25); the plate types, where it ends, rise as it goes.
    'walk: loop {
        if at.plates.0 <= j {
            break 'walk Ok(at);
        }
        let plate = plate_at(plates, PlateType(j));
        let least = leasts[j as usize];
        let mut i: u16 = 2;
        while i <= last {
            match pair_step(
                job.words,
                head.mode,
                head.blade,
                table,
                plates,
                index,
                leasts,
                cuts,
                &mut at,
                PlateType(j),
                plate,
                least,
                ItemPosition(i),
            ) {
                Ok(()) => {}
                Err(refusal) => {
                    break 'walk Err(refusal);
                }
            }
            i = next_at(table, ItemPosition(i));
        }
        j += 1;
    }
}

// The whole walk, from buffers that hold the sizes alone.
pub fn walk(job: &JobRead, plates: &mut [u16], cuts: &mut [u16]) -> Result<Listed, Refusal>
    requires room { Room job.now.words.now plates.old cuts.old }
    requires rep { Rep (job_of job.now.words.now) (walk_start (job_of job.now.words.now)) plates.old cuts.old job.now.head.sizes.0 0 }
    ensures { Stepped (job_of job.now.words.now) (walk (job_of job.now.words.now)) result plates.new cuts.new }
{
    let mut table = [0u16; TABLE_SIZE];
    learn(job, &mut table);
    let mut index = [0u16; INDEX_SIZE];
    let mut leasts = [0u16; MAX_PLATES as usize];
    put_leasts(job, &mut leasts);
    walk_rows(job, &table, plates, &mut index, &mut leasts, cuts)
}
