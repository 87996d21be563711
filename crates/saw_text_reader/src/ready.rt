// Whether a state's own numbers are sound, and lent buffers of full size.
ghost use Rattle.std.specs.Prelude.{◌≡◌, true, false};
ghost use Rattle.saw_text_lines.specs.SawKept.{lent, Room};
ghost use Rattle.saw_text_reader.specs.SawFed.{SawReady};

use crate::saw::SawReader;
use job::sizes::{COUNTS_SIZE, CUTS_SIZE, JOB_SIZE, PLATES_SIZE, PRICES_SIZE};
use texts::widths::{LONGEST_LINE, MAX_LINES};

// Whether the lent buffers are of full size.
pub fn room(job: &[u16], plates: &[u16], cuts: &[u16], counts: &[u16], prices: &[u16]) -> bool
    ensures { (result ≡ true → Room (lent job.now plates.now cuts.now counts.now prices.now)) × (result ≡ false → Room (lent job.now plates.now cuts.now counts.now prices.now) → ⊥) }
{
    JOB_SIZE <= job.len()
        && PLATES_SIZE <= plates.len()
        && CUTS_SIZE <= cuts.len()
        && COUNTS_SIZE <= counts.len()
        && PRICES_SIZE <= prices.len()
}

impl SawReader {
    // Whether the state is sound and the lent buffers are of full size.
    pub fn ready(
        self,
        job: &[u16],
        plates: &[u16],
        cuts: &[u16],
        counts: &[u16],
        prices: &[u16],
    ) -> bool
        ensures { (result ≡ true → SawReady self (lent job.now plates.now cuts.now counts.now prices.now)) × (result ≡ false → SawReady self (lent job.now plates.now cuts.now counts.now prices.now) → ⊥) }
    {
        self.text.lines <= MAX_LINES
            && self.text.pending.length < LONGEST_LINE
            && room(job, plates, cuts, counts, prices)
    }
}
