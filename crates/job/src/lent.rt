// The buffers that calls are lent: whether they are of full size, and what a refusal leaves in them.
ghost use Rattle.std.specs.Prelude.{◌≡◌, List, ℕ};
ghost use Rattle.job.specs.Verdict.{refuse, ◌then◌};
ghost use Rattle.job.specs.Buffers.{ends, sized, plates_size, cuts_size, counts_size, placements_size, offcuts_size};
ghost use Rattle.job.specs.Lent.{which_of, full_size};
ghost use Rattle.job.specs.Refused.{row_verdict};

use crate::refused::{Refusal, Refused};
use crate::sizes::{COUNTS_SIZE, CUTS_SIZE, OFFCUTS_SIZE, PLACEMENTS_SIZE, PLATES_SIZE};
use crate::words::clear;

// The buffers that a call is lent, in the order of their numbers, from 1.
#[derive(Clone, Copy, Debug, PartialEq, Eq)]
pub enum Buffer {
    Plates,
    Cuts,
    Counts,
    Placements,
    Offcuts,
}

impl Buffer {
    // Its number, which a refusal 5 names.
    fn number(self) -> usize
        ensures { result ≡ which_of self }
    {
        self as usize + 1
    }

    // Its full size.
    fn full_size(self) -> usize
        ensures { result ≡ full_size self }
    {
        match self {
            Buffer::Plates => PLATES_SIZE,
            Buffer::Cuts => CUTS_SIZE,
            Buffer::Counts => COUNTS_SIZE,
            Buffer::Placements => PLACEMENTS_SIZE,
            Buffer::Offcuts => OFFCUTS_SIZE,
        }
    }

    // 5 for words that are fewer than its full size.
    fn sized(self, words: &[u16]) -> Result<(), Refused>
        ensures { row_verdict result ≡ sized (which_of self) (full_size self) words.now }
    {
        if words.len() < self.full_size() {
            return Err(Refusal::BufferShort.at(self.number()));
        }
        Ok(())
    }
}

// The plates and cuts that every call is lent.
pub fn model_sized(plates: &[u16], cuts: &[u16]) -> Result<(), Refused>
    ensures { row_verdict result ≡ (sized 1 plates_size plates.now then sized 2 cuts_size cuts.now) }
{
    Buffer::Plates.sized(plates)?;
    Buffer::Cuts.sized(cuts)
}

// Plates, cuts and counts.
pub fn counts_sized(plates: &[u16], cuts: &[u16], counts: &[u16]) -> Result<(), Refused>
    ensures { row_verdict result ≡ (sized 1 plates_size plates.now then sized 2 cuts_size cuts.now then sized 3 counts_size counts.now) }
{
    Buffer::Plates.sized(plates)?;
    Buffer::Cuts.sized(cuts)?;
    Buffer::Counts.sized(counts)
}

// Plates, cuts, counts, placements and offcuts.
pub fn offcuts_sized(
    plates: &[u16],
    cuts: &[u16],
    counts: &[u16],
    placements: &[u16],
    offcuts: &[u16],
) -> Result<(), Refused>
    ensures { row_verdict result ≡ (sized 1 plates_size plates.now then sized 2 cuts_size cuts.now then sized 3 counts_size counts.now then sized 4 placements_size placements.now then sized 5 offcuts_size offcuts.now) }
{
    Buffer::Plates.sized(plates)?;
    Buffer::Cuts.sized(cuts)?;
    Buffer::Counts.sized(counts)?;
    Buffer::Placements.sized(placements)?;
    Buffer::Offcuts.sized(offcuts)
}

// What a refusal leaves in an output buffer: after 5 it is unchanged, after another number every word is 0.
pub fn end_refused(number: u16, buffer: &mut [u16])
    ensures { (place : ℕ) (ws : List ℕ) → buffer.new ≡ ends (refuse number place) buffer.old ws }
{
    if number != 5 {
        clear(buffer);
    }
}
