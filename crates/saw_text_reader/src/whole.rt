// The lines that stand whole in a part after one that was taken: those of which a text can have many, lines 3 and lines 6.
ghost use Rattle.std.specs.Prelude.{◌≤◌, length};
ghost use Rattle.saw_text_lines.specs.SawKept.{lent};
ghost use Rattle.saw_text_reader.specs.SawFed.{SawReady};
ghost use Rattle.saw_text_reader.specs.Onward.{ReadOn};

use crate::saw::SawReader;
use texts_reading::text::Place;

// A saw text after some lines of a part, and where the next begins in the part.
#[derive(Clone, Copy)]
pub struct LinesRead {
    pub reader: SawReader,
    pub at: usize,
}

impl SawReader {
    // Lines 3 or lines 6 that come next and stand whole in the part; where none is taken nothing changes.
    pub fn whole_lines(
        self,
        part: &[u8],
        from: usize,
        job: &[u16],
        plates: &[u16],
        cuts: &[u16],
        counts: &mut [u16],
        prices: &mut [u16],
    ) -> LinesRead
        requires from_in_bounds { from ≤ length part.now }
        requires saw_ready { SawReady self (lent job.now plates.now cuts.now counts.old prices.old) }
        ensures { ReadOn part.now from self (lent job.now plates.now cuts.now counts.old prices.old) result.at result.reader (lent job.now plates.now cuts.now counts.new prices.new) }
    {
        if let Place::Body = self.text.place {
            return self.body(part, from, job, plates, cuts, counts);
        }
        self.prices(part, from, job, prices)
    }
}
