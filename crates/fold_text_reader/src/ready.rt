// Whether a state's own numbers are sound, and lent words of full size.
ghost use Rattle.std.specs.Prelude.{◌≡◌, true, false, ◌≤◌};
ghost use Rattle.job.specs.Sizes.{max_sizes, max_types};
ghost use Rattle.fold_text_reader.specs.FoldKept.{PlaceReady, FoldReady};

use crate::fold::FoldReader;
use job::head::{Head, head_of};
use job::sizes::{JOB_SIZE, MAX_SIZES, MAX_TYPES, PLACEMENTS_SIZE};
use texts::widths::{LONGEST_LINE, MAX_LINES};
use texts_reading::text::Place;

// Whether there are at most 6 sizes and 40 item types.
fn within_limits(head: Head) -> bool
    ensures { (result ≡ true → (head.sizes.0 ≤ max_sizes) × (head.types.0 ≤ max_types)) × (result ≡ false → (head.sizes.0 ≤ max_sizes) × (head.types.0 ≤ max_types) → ⊥) }
{
    head.sizes.0 <= MAX_SIZES && head.types.0 <= MAX_TYPES
}

// Whether the numbers for what comes next are sound.
fn place_ready(place: Place, head: Head, rows: u32) -> bool
    ensures { (result ≡ true → PlaceReady place head.sizes.0 head.types.0 rows) × (result ≡ false → PlaceReady place head.sizes.0 head.types.0 rows → ⊥) }
{
    match place {
        Place::First => rows == 0,
        Place::Sizes(j) => j.0 < head.sizes.0
            && 1 <= head.types.0
            && within_limits(head)
            && rows == 0,
        Place::Types(i) => 1 <= i.0 && i.0 <= head.types.0 && within_limits(head) && rows == 0,
        Place::Body => within_limits(head),
        _ => false,
    }
}

impl FoldReader {
    // Whether the state is sound and the lent words are of full size.
    #[tactic(auto, using(crate::proofs::CodeRows::size_is), unfolding(crate::specs::FoldKept::layouts_size))]
    pub fn ready(self, job: &[u16], layouts: &[u16]) -> bool
        ensures { (result ≡ true → FoldReady self job.now layouts.now) × (result ≡ false → FoldReady self job.now layouts.now → ⊥) }
    {
        JOB_SIZE <= job.len()
            && PLACEMENTS_SIZE <= layouts.len()
            && self.text.lines <= MAX_LINES
            && self.text.pending.length < LONGEST_LINE
            && self.rows <= self.text.lines
            && place_ready(self.text.place, head_of(job), self.rows)
    }
}
