// The fold text as one call: its bytes are read, whole or in parts, and its answer is written.
ghost use Rattle.std.specs.Prelude.{◌≤◌, length};
ghost use Rattle.job.specs.Sizes.{longest_job};
ghost use Rattle.fold_text_reader.specs.FoldKept.{layouts_size};
ghost use Rattle.fold_text_reader.specs.Parts.{After, lent as words};
ghost use Rattle.fold_text_call.specs.Called.{lent, Called};

use fold_text_ending::ending::has_room;
use fold_text_ending::finish::finish;
use fold_text_reader::fold::{FoldReader, feed, start};

// Answers a fold text as the fold program does: its lines 3, or one line 9 alone, at the start of the output. The number of bytes is handed back, and
// the bytes behind them stay. The job ends as the text's words, the layouts as those of its first 4,000 lines 7, plates and cuts as the listing, counts
// as the plan, with zeros behind; where the text is refused every word of the last three is 0. Where a lent buffer is shorter than its full size, 183
// words of the job, 36,000 of layouts, 8,192 of plates, 32,768 of cuts, 8,192 counts, or the output than 292,000 bytes, nothing changes, and 0 is
// handed back.
pub fn fold_text(
    text: &[u8],
    out: &mut [u8],
    job: &mut [u16],
    layouts: &mut [u16],
    plates: &mut [u16],
    cuts: &mut [u16],
    counts: &mut [u16],
) -> usize
    ensures { Called text.now (lent out.old job.old layouts.old plates.old cuts.old counts.old) result (lent out.new job.new layouts.new plates.new cuts.new counts.new) }
{
    fold_in_parts(text, &[], out, job, layouts, plates, cuts, counts)
}

// Feeds a text in parts that end at the given places, and then the rest of it.
// One loop for both texts is no plainer: `feed` takes two lent buffers here and five in `saw_text_call`, which a trait would want as a struct of each.
#[tactic(auto, using(crate::proofs::TextParts::read_rest))]
fn read_in_parts(text: &[u8], ends: &[u32], job: &mut [u16], layouts: &mut [u16]) -> FoldReader
    requires { (longest_job ≤ length job.old) × (layouts_size ≤ length layouts.old) }
    ensures { After text.now result (words job.new layouts.new) }
{
    let mut reader = start(job, layouts);
    let mut at = 0;
    for &end in ends {
        let end = end as usize;
        if end <= at || text.len() < end {
            continue;
        }
        reader = feed(reader, &text[at..end], job, layouts);
        at = end;
    }
    feed(reader, &text[at..], job, layouts)
}

// Answers a fold text that comes in parts. They end at the given places of the text: one that is not after the last, or is past the text, is passed
// over, and the rest of the text is the last part. Whatever the places are, the answer and every lent word are those of `fold_text`.
pub fn fold_in_parts(
    text: &[u8],
    ends: &[u32],
    out: &mut [u8],
    job: &mut [u16],
    layouts: &mut [u16],
    plates: &mut [u16],
    cuts: &mut [u16],
    counts: &mut [u16],
) -> usize
    ensures { Called text.now (lent out.old job.old layouts.old plates.old cuts.old counts.old) result (lent out.new job.new layouts.new plates.new cuts.new counts.new) }
{
    if has_room(
        job.len(),
        layouts.len(),
        plates.len(),
        cuts.len(),
        counts.len(),
        out.len(),
    ) {
        let reader = read_in_parts(text, ends, job, layouts);
        return finish(reader, job, layouts, plates, cuts, counts, out);
    }
    0
}
