// The records of plate types and cuts in lent buffers.
ghost use Rattle.std.specs.Prelude.{◌≡◌, List, [], ◌∷◌, ◌++◌, length};
ghost use Rattle.job.specs.Sizes.{words_of_plate, words_of_cut, RecordIn};
ghost use Rattle.job.specs.Job.{Job, size_at};
ghost use Rattle.listing.specs.Listing.{Cut};
ghost use Rattle.listing.specs.Records.{plate_words, cut_words};
ghost use Rattle.listing.specs.Holds.{Holds, plate_read, cut_of_words};
ghost use Rattle.listing.specs.declared.plate.Plate.{Plate};

use crate::plate::Plate;
use job::counters::{CutNumber, ItemPosition, PlateType, PlateTypes};
use job::sizes::{CUT_WORDS, PLATE_WORDS};

// The plate type of a number.
pub fn plate_at(plates: &[u16], j: PlateType) -> Plate
    requires { RecordIn words_of_plate j.0 plates.now }
    ensures { result ≡ plate_read plates.now j.0 }
{
    let at = PLATE_WORDS * (j.0 as usize);
    Plate {
        width: plates[at],
        height: plates[at + 1],
        stage: plates[at + 2],
    }
}

// Writes the next plate type and its cost, that of a size and 0 of a residual, behind the m that the buffer holds.
pub fn put_plate(plates: &mut [u16], m: PlateTypes, p: Plate, cost: u16)
    requires { RecordIn words_of_plate m.0 plates.old }
    ensures { (job : Job) (ps : List Plate) → length ps ≡ m.0 → (size_at job m.0).cost ≡ cost → Holds plates.old (plate_words job ps) → Holds plates.new (plate_words job (ps ++ p ∷ [])) }
{
    let at = PLATE_WORDS * (m.0 as usize);
    plates[at] = p.width;
    plates[at + 1] = p.height;
    plates[at + 2] = p.stage;
    plates[at + 3] = cost;
}

// Writes a cut, of plate type j and an item in position i, behind the k cuts that the buffer holds.
pub fn put_cut(
    cuts: &mut [u16],
    k: CutNumber,
    j: PlateType,
    i: ItemPosition,
    top: PlateType,
    right: PlateType,
)
    requires { RecordIn words_of_cut k.0 cuts.old }
    ensures { (cs : List Cut) → length cs ≡ k.0 → Holds cuts.old (cut_words cs) → Holds cuts.new (cut_words (cs ++ cut_of_words j.0 i.0 top.0 right.0 ∷ [])) }
{
    let at = CUT_WORDS * (k.0 as usize);
    cuts[at] = j.0;
    cuts[at + 1] = i.0;
    cuts[at + 2] = top.0;
    cuts[at + 3] = right.0;
}
