// The end of a fold text, by its reader.
ghost use Rattle.std.specs.Prelude.{◌≡◌, true, false, List, ℕ, length};
ghost use Rattle.texts.specs.Reader.{Reader, started, fed};
ghost use Rattle.texts.specs.FoldText.{Fold, fold_grammar};
ghost use Rattle.fold_text_reader.specs.FoldKept.{FoldKept};
ghost use Rattle.fold_text_ending.specs.FoldEnd.{room_to_end, Unchanged};
ghost use Rattle.fold_text_ending.specs.Finished.{Finished};

use crate::ending::end_text;
use fold_text_reader::fold::FoldReader;

// What the fold program writes where its text ends: a line 3 for each cut that is counted, or one line 9 alone. The number of bytes is handed back, and
// the bytes behind them stay. Plates and cuts end as the listing and counts as the plan, with zeros behind; where the text is refused every word of
// them is 0. Where a lent buffer is shorter than its full size, 183 words of the job, 36,000 of layouts, 8,192 of plates, 32,768 of cuts, 8,192 counts,
// or the output than 292,000 bytes, nothing is written, and 0 is handed back.
pub fn finish(
    reader: FoldReader,
    job: &[u16],
    layouts: &[u16],
    plates: &mut [u16],
    cuts: &mut [u16],
    counts: &mut [u16],
    out: &mut [u8],
) -> usize
    ensures unchanged { room_to_end (length job.now) (length layouts.now) (length plates.old) (length cuts.old) (length counts.old) (length out.old) ≡ false → Unchanged out.old plates.old cuts.old counts.old result out.new plates.new cuts.new counts.new }
    ensures finished { room_to_end (length job.now) (length layouts.now) (length plates.old) (length cuts.old) (length counts.old) (length out.old) ≡ true → (r : Reader Fold) (bs : List ℕ) → r ≡ fed fold_grammar (started fold_grammar) bs → FoldKept r reader job.now layouts.now → Finished r out.old plates.old cuts.old counts.old result out.new plates.new cuts.new counts.new }
{
    let text = reader.text;
    let rows = reader.rows;
    end_text(text, rows, job, layouts, plates, cuts, counts, out)
}
