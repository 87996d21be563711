// The two texts, as a host calls them: bytes in, bytes out. The answer stands at the start of `out`, its number of bytes is handed back, and the bytes behind
// it stay. Where `out` is shorter than the longest answer nothing is written, and 0 is handed back.
// The other words are arrays of full size on the stack, by the rule of no heap and fixed memory.
ghost use Rattle.texts.specs.SawText.{saw_text};
ghost use Rattle.texts.specs.FoldText.{fold_text};
ghost use Rattle.texts_writing.specs.Wrote.{longest_saw, longest_fold};
ghost use Rattle.answers.specs.TextAnswer.{TextAnswer};

use job::sizes::{COUNTS_SIZE, CUTS_SIZE, JOB_SIZE, PLACEMENTS_SIZE, PLATES_SIZE, PRICES_SIZE};

// The saw text: lines 7 and line 8, or line 9. The longest answer has 364,046 bytes.
#[unsafe(no_mangle)]
pub extern "C" fn saw_text(text: &[u8], out: &mut [u8]) -> usize
    ensures { TextAnswer longest_saw (saw_text text.now) out.old result out.new }
{
    let mut job = [0u16; JOB_SIZE];
    let mut plates = [0u16; PLATES_SIZE];
    let mut cuts = [0u16; CUTS_SIZE];
    let mut counts = [0u16; COUNTS_SIZE];
    let mut prices = [0u16; PRICES_SIZE];
    let mut placements = [0u16; PLACEMENTS_SIZE];
    saw_text_call::call::saw_text(
        text,
        out,
        &mut job,
        &mut plates,
        &mut cuts,
        &mut counts,
        &mut prices,
        &mut placements,
    )
}

// The fold text: lines 3, or line 9. The longest answer has 292,000 bytes.
#[unsafe(no_mangle)]
pub extern "C" fn saw_fold_text(text: &[u8], out: &mut [u8]) -> usize
    ensures { TextAnswer longest_fold (fold_text text.now) out.old result out.new }
{
    let mut job = [0u16; JOB_SIZE];
    let mut layouts = [0u16; PLACEMENTS_SIZE];
    let mut plates = [0u16; PLATES_SIZE];
    let mut cuts = [0u16; CUTS_SIZE];
    let mut counts = [0u16; COUNTS_SIZE];
    fold_text_call::call::fold_text(
        text,
        out,
        &mut job,
        &mut layouts,
        &mut plates,
        &mut cuts,
        &mut counts,
    )
}
