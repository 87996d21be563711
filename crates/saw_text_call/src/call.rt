// The saw text as a call: from bytes to bytes, whole or in parts.
ghost use Rattle.saw_text_lines.specs.SawKept.{lent, Room};
ghost use Rattle.saw_text_reader.specs.Parts.{After};
ghost use Rattle.saw_text_call.specs.TextCall.{SawCall};

use saw_text_ending::finish::{finish_listed, has_room};
use saw_text_reader::saw::{SawReader, feed, start};

// The saw text of some bytes: the answer is written at the start of the output, lines 7 and line 8, or one line 9 alone, and its number of bytes is
// handed back; the bytes behind it stay. The job's words, plates, cuts, counts, prices and placements end as the words of the text and then zeros.
// Where a lent buffer is shorter than its full size, 183 words of the job, 8,192 of plates, 32,768 of cuts, 8,192 counts, 2,088 prices, 36,000 words of
// placements, or the output than 364,046 bytes, nothing is written, no lent word changes, and 0 is handed back.
pub fn saw_text(
    text: &[u8],
    out: &mut [u8],
    job: &mut [u16],
    plates: &mut [u16],
    cuts: &mut [u16],
    counts: &mut [u16],
    prices: &mut [u16],
    placements: &mut [u16],
) -> usize
    ensures { SawCall text.now (lent job.old plates.old cuts.old counts.old prices.old) placements.old out.old result (lent job.new plates.new cuts.new counts.new prices.new) placements.new out.new }
{
    saw_in_parts(
        text,
        &[],
        out,
        job,
        plates,
        cuts,
        counts,
        prices,
        placements,
    )
}

// Reads a text in parts that end at the given places, and the rest of it as the last part.
// One loop for both texts is no plainer: `feed` takes five lent buffers here and two in `fold_text_call`, which a trait would want as a struct of each.
fn read_parts(
    text: &[u8],
    ends: &[u32],
    job: &mut [u16],
    plates: &mut [u16],
    cuts: &mut [u16],
    counts: &mut [u16],
    prices: &mut [u16],
) -> SawReader
    requires { Room (lent job.old plates.old cuts.old counts.old prices.old) }
    ensures { After text.now result (lent job.new plates.new cuts.new counts.new prices.new) }
{
    let mut reader = start(job, plates, cuts, counts, prices);
    let mut at = 0;
    for &end in ends {
        let end = end as usize;
        if end <= at || text.len() < end {
            continue;
        }
        reader = feed(reader, &text[at..end], job, plates, cuts, counts, prices);
        at = end;
    }
    feed(reader, &text[at..], job, plates, cuts, counts, prices)
}

// The saw text of bytes that come in parts, which end at the given places: an end that is not after the last one, or is past the text, is passed over,
// and the rest of the text is the last part. Whatever the parts are, answer and lent words are those of the whole.
pub fn saw_in_parts(
    text: &[u8],
    ends: &[u32],
    out: &mut [u8],
    job: &mut [u16],
    plates: &mut [u16],
    cuts: &mut [u16],
    counts: &mut [u16],
    prices: &mut [u16],
    placements: &mut [u16],
) -> usize
    ensures { SawCall text.now (lent job.old plates.old cuts.old counts.old prices.old) placements.old out.old result (lent job.new plates.new cuts.new counts.new prices.new) placements.new out.new }
{
    if has_room(job, plates, cuts, counts, prices, placements, out) {
        let parts = read_parts(text, ends, job, plates, cuts, counts, prices);
        return finish_listed(parts, job, plates, cuts, counts, prices, placements, out);
    }
    0
}
