// Where the cuts of each plate type begin.
ghost use Rattle.std.specs.Prelude.{◌≡◌, ◌&&◌, ◌*◌, ◌≤◌, ltb, length};
ghost use Rattle.job.specs.Sizes.{words_of_cut};
ghost use Rattle.job.specs.Job.{Job};
ghost use Rattle.listing.specs.Listing.{Listing};
ghost use Rattle.listing.specs.Model.{Model};
ghost use Rattle.listing.specs.Records.{cut_words};
ghost use Rattle.listing.specs.Holds.{Holds};
ghost use Rattle.listing.specs.CutRead.{cut_read};
ghost use Rattle.unfold_waiting.specs.Begins.{Begins, begins_size};

use job::counters::{CutNumber, PlateType};
use job::sizes::MAX_PLATES;
use listing::cut::cut_at;

// A word for each plate type, and one past the last.
pub const BEGINS_SIZE: usize = MAX_PLATES as usize + 1;

// Whether one of the k cuts stands behind c others and is on a plate type below j.
fn is_below(cuts: &[u16], k: CutNumber, c: u16, j: PlateType) -> bool
    requires { words_of_cut * k.0 ≤ length cuts.now }
    ensures { result ≡ (ltb c k.0 && ltb (cut_read cuts.now c).plate j.0) }
{
    c < k.0 && cut_at(cuts, CutNumber(c + 1)).plate.0 < j.0
}

// Writes for each plate type how many of the k cuts of a listing are on the types below it: in one pass over the cuts, whose plate types do not fall. A
// type without a cut begins where the next one does, and past the last type all words are k.
pub fn cut_begins(cuts: &[u16], k: CutNumber, begins: &mut [u16])
    requires { (words_of_cut * k.0 ≤ length cuts.now) × (length begins.old ≤ begins_size) }
    ensures { (job : Job) (l : Listing) → Model job l → length l.cuts ≡ k.0 → Holds cuts.now (cut_words l.cuts) → Begins l.cuts begins.new }
{
    let mut c: u16 = 0;
    for j in 0..begins.len() {
        // c goes on where the plate type before ended, and the cuts alone say how far: no range is known, so a `for` is no plainer.
        while is_below(cuts, k, c, PlateType(j as u16)) {
            c += 1;
        }
        begins[j] = c;
    }
}
