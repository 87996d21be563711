// The index of residual types, in words: for each bucket one more than the greatest number in it, and behind them for each number one more than the one
// before it in its bucket; 0 where there is none.
// Numbers in words, not a map: a rule of the project (no heap, fixed memory).
ghost use Rattle.std.specs.Prelude.{◌≡◌, List, [], ◌∷◌, ◌++◌, ℕ, ◌≤◌, ◌<◌, ◌*◌, length};
ghost use Rattle.job.specs.Sizes.{max_plates, words_of_plate};
ghost use Rattle.job.specs.Job.{Job};
ghost use Rattle.listing.specs.declared.plate.Plate.{Plate};
ghost use Rattle.listing.specs.Listing.{number_from};
ghost use Rattle.listing.specs.Records.{plate_words};
ghost use Rattle.listing.specs.Holds.{Holds};
ghost use Rattle.listing_index.specs.Index.{buckets, index_size, bucket_of, Indexed, Chained, New};

use job::counters::{PlateType, PlateTypes};
use job::sizes::MAX_PLATES;
use listing::plate::{Plate, same};
use listing::words::plate_at;

// The buckets: a prime above the greatest side.
pub const BUCKETS: usize = 10007;

// What a height and a stage count for beside a width.
const HEIGHT_FACTOR: usize = 6185;

const STAGE_FACTOR: usize = 3121;

// The words of the index.
pub const INDEX_SIZE: usize = BUCKETS + MAX_PLATES as usize;

// The bucket of a plate type.
#[tactic(auto, unfolding(crate::specs::Index::bucket_of))]
fn bucket(p: Plate) -> usize
    ensures { (result ≡ bucket_of p) × (result < buckets) }
{
    (p.width as usize + HEIGHT_FACTOR * (p.height as usize) + STAGE_FACTOR * (p.stage as usize))
        % BUCKETS
}

// The number of a residual type among the m plate types of the buffer; or, where it is new, the next number.
pub fn find(plates: &[u16], index: &[u16], m: PlateTypes, p: Plate) -> PlateType
    requires { Chained index.now m.0 × (words_of_plate * m.0 ≤ length plates.now) }
    ensures by_index { (t : ℕ) (job : Job) (ps : List Plate) → length ps ≡ m.0 → Holds plates.now (plate_words job ps) → Indexed t ps index.now → result.0 ≡ number_from t ps p }
    ensures result_le_m { result.0 ≤ m.0 }
{
    let b = bucket(p);
    let mut k = index[b];
    while 0 < k {
        let j = k - 1;
        let q = plate_at(plates, PlateType(j));
        if same(p, q) {
            return PlateType(j);
        }
        let at = BUCKETS + j as usize;
        k = index[at];
    }
    PlateType(m.0)
}

// Plate type m, which is new, becomes the greatest number of its bucket.
pub fn put(index: &mut [u16], m: PlateTypes, p: Plate)
    requires { (index_size ≤ length index.old) × (m.0 < max_plates) }
    ensures { (t : ℕ) (ps : List Plate) → length ps ≡ m.0 → t ≤ m.0 → New t ps p → Indexed t ps index.old → Indexed t (ps ++ p ∷ []) index.new }
{
    let b = bucket(p);
    let at = BUCKETS + m.0 as usize;
    let last = index[b];
    index[at] = last;
    index[b] = m.0 + 1;
}
