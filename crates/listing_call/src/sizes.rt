// The sizes of a job as the first plate types, where the walk begins.
ghost use Rattle.std.specs.Prelude.{◌≡◌, [], map, ℕ, ◌*◌, ◌≤◌, ◌<◌, length, get_or};
ghost use Rattle.job.specs.Sizes.{max_plates, words_of_plate, words_before};
ghost use Rattle.job.specs.Job.{board_sizes, job_of, size_at};
ghost use Rattle.listing.specs.Plate.{board};
ghost use Rattle.listing.specs.Records.{plate_words};
ghost use Rattle.listing.specs.Holds.{Holds};
ghost use Rattle.listing_positions.specs.Least.{least_of};

use job::counters::{BoardSizes, PlateType, PlateTypes};
use job::job_read::JobRead;
use job::size::Size;
use job::words::size_at;
use listing::plate::Plate;
use listing::words::put_plate;
use listing_positions::least::least_side;

// The plate of a board of this size.
fn board(size: Size) -> Plate
    ensures { result ≡ board size }
{
    Plate {
        width: size.width,
        height: size.height,
        stage: 1,
    }
}

// Writes the sizes of a job, t of them, as the first plate types into a buffer that holds none.
// Words and a number in place of a `JobRead`: what may not change (`put_sizes`, clause `sizes_value`, asks less of the words than that type does).
pub fn put_sizes(job: &[u16], sizes: BoardSizes, plates: &mut [u16])
    requires sizes_value { (sizes.0 ≡ board_sizes job.now) × ((words_before (board_sizes job.now) ≤ length job.now) × (words_of_plate * sizes.0 ≤ length plates.old)) }
    requires holds { Holds plates.old (plate_words (job_of job.now) []) }
    ensures { Holds plates.new (plate_words (job_of job.now) (map board (job_of job.now).sizes)) }
{
    for j in 0..sizes.0 {
        let size = size_at(job, PlateType(j));
        put_plate(plates, PlateTypes(j), board(size), size.cost);
    }
}

// Writes the least height of a plate of stage 1 that is as wide as each size of a job and is kept.
pub fn put_leasts(job: &JobRead, leasts: &mut [u16])
    requires { max_plates ≤ length leasts.old }
    ensures { (j : ℕ) → j < job.now.head.sizes.0 → get_or leasts.new j 0 ≡ least_of (job_of job.now.words.now) (board (size_at (job_of job.now.words.now) j)) }
{
    for j in 0..job.head.sizes.0 {
        let size = job.size(PlateType(j));
        leasts[j as usize] = least_side(job, board(size));
    }
}
