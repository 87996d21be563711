// Plate types: the number of a residual.
ghost use Rattle.std.specs.Prelude.{List, ◌≤◌, length};
ghost use Rattle.job.specs.Sizes.{max_plates, plates_size};
ghost use Rattle.job.specs.Job.{Job};
ghost use Rattle.listing.specs.declared.plate.Plate.{Plate};
ghost use Rattle.listing.specs.Listing.{entered};
ghost use Rattle.listing_index.specs.Index.{Chained};
ghost use Rattle.listing_call.specs.Steps.{Holding, KeptFrom, EnteredAs};

use job::counters::{PlateType, PlateTypes};
use job::refused::Refusal;
use job::sizes::MAX_PLATES;
use listing::plate::Plate;
use listing::words::put_plate;
use listing_index::index::{find, put};

// A residual's number, 0 if it is not kept, and the number of plate types with it among them.
// 0 in place of an `Option`: the C interface, for the number stands so in the words of a cut.
#[derive(Clone, Copy, Debug, PartialEq, Eq)]
pub struct Entered {
    pub number: PlateType,
    pub plates: PlateTypes,
}

// Enters a residual, which is kept if its divided side reaches `least`: one that is kept and new becomes the next plate type, behind the m of the buffer.
// Refused is 6 alone, where there is no room for one more.
pub fn enter(
    plates: &mut [u16],
    index: &mut [u16],
    leasts: &mut [u16],
    m: PlateTypes,
    p: Plate,
    side: u16,
    least: u16,
) -> Result<Entered, Refusal>
    requires { (plates_size ≤ length plates.old) × (Chained index.old m.0 × (max_plates ≤ length leasts.old)) }
    ensures { (job : Job) (ps : List Plate) → Holding job ps plates.old index.old leasts.old m.0 → KeptFrom job p side least → EnteredAs job (entered job p ps) result plates.new index.new leasts.new }
{
    if side < least {
        return Ok(Entered {
            number: PlateType(0),
            plates: m,
        });
    }
    let j = find(plates, index, m, p);
    if j.0 < m.0 {
        return Ok(Entered {
            number: j,
            plates: m,
        });
    }
    if MAX_PLATES <= m.0 {
        return Err(Refusal::PlatesMany);
    }
    put_plate(plates, m, p, 0);
    put(index, m, p);
    leasts[m.0 as usize] = least;
    Ok(Entered {
        number: j,
        plates: PlateTypes(m.0 + 1),
    })
}
