// The end of a saw text, by its reader.
ghost use Rattle.std.specs.Prelude.{◌≡◌, true, false, List, ℕ};
ghost use Rattle.texts.specs.Reader.{started, fed};
ghost use Rattle.texts.specs.SawText.{saw_grammar};
ghost use Rattle.saw_text_lines.specs.SawKept.{lent};
ghost use Rattle.saw_text_reader.specs.Parts.{After};
ghost use Rattle.saw_text_ending.specs.SawEnd.{RoomToEnd, Unchanged};
ghost use Rattle.saw_text_ending.specs.Finished.{Finished};

use crate::ending::end_text;
use job::sizes::PLACEMENTS_SIZE;
use saw_text_reader::ready::room;
use saw_text_reader::saw::SawReader;
use texts_writing::sizes::LONGEST_SAW;

// Whether each lent buffer has its full size, and the output room for the longest.
pub fn has_room(
    job: &[u16],
    plates: &[u16],
    cuts: &[u16],
    counts: &[u16],
    prices: &[u16],
    placements: &[u16],
    out: &[u8],
) -> bool
    ensures { (result ≡ true → RoomToEnd (lent job.now plates.now cuts.now counts.now prices.now) placements.now out.now) × (result ≡ false → RoomToEnd (lent job.now plates.now cuts.now counts.now prices.now) placements.now out.now → ⊥) }
{
    room(job, plates, cuts, counts, prices)
        && PLACEMENTS_SIZE <= placements.len()
        && LONGEST_SAW <= out.len()
}

// What the saw program writes where its text ends: lines 7 and line 8, or one line 9 alone. The number of bytes is handed back, and the bytes behind
// them stay. Placements end as the nine words of each piece and then zeros; where the text is refused every word of them is 0. The model is the one
// that the reader listed when the job's lines were complete: this is for a caller that can show that state and lent buffers are those that `start` and
// `feed` left. Where a lent buffer is shorter than its full size, 183 words of the job, 8,192 of plates, 32,768 of cuts, 8,192 counts, 2,088 prices,
// 36,000 words of placements, or the output than 364,046 bytes, nothing is written, and 0 is handed back.
pub fn finish_listed(
    reader: SawReader,
    job: &[u16],
    plates: &[u16],
    cuts: &[u16],
    counts: &[u16],
    prices: &[u16],
    placements: &mut [u16],
    out: &mut [u8],
) -> usize
    requires { RoomToEnd (lent job.now plates.now cuts.now counts.now prices.now) placements.old out.old → (bs : List ℕ) × After bs reader (lent job.now plates.now cuts.now counts.now prices.now) }
    ensures unchanged { (RoomToEnd (lent job.now plates.now cuts.now counts.now prices.now) placements.old out.old → ⊥) → Unchanged out.old placements.old result out.new placements.new }
    ensures finished { RoomToEnd (lent job.now plates.now cuts.now counts.now prices.now) placements.old out.old → (bs : List ℕ) → After bs reader (lent job.now plates.now cuts.now counts.now prices.now) → Finished (fed saw_grammar (started saw_grammar) bs) out.old placements.old result out.new placements.new }
{
    if !has_room(job, plates, cuts, counts, prices, placements, out) {
        return 0;
    }
    end_text(
        reader.text,
        reader.held,
        job,
        plates,
        cuts,
        counts,
        prices,
        placements,
        out,
    )
}
