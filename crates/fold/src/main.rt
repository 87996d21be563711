// The fold program: a fold text comes from standard input in parts, and its answer goes to standard output.
#![tactic(auto)]

ghost use Rattle.std.specs.Prelude.{◌≡◌, refl, false, IfSome, OnOk};
ghost use Rattle.std.specs.Io.KnownBytes.{Appends};
ghost use Rattle.texts.specs.FoldText.{fold_text};
ghost use Rattle.texts.specs.TextLaws.{longest_fold_text};
ghost use Rattle.texts_writing.specs.Wrote.{longest_fold};
ghost use Rattle.fold_text_reader.specs.Parts.{After, lent};
ghost use Rattle.programs.specs.Program.{most_parts, WritesFrom};
ghost use Rattle.programs.proofs.Decided.{enough};

use fold_text_ending::finish::finish;
use fold_text_reader::fold::{FoldReader, feed, start};
use job::sizes::{COUNTS_SIZE, CUTS_SIZE, JOB_SIZE, PLACEMENTS_SIZE, PLATES_SIZE};
use programs::input::Input;
use programs::parts::PART_SIZE;
use programs::text::{Text, run};
use std::io;
use std::io::{Read, Write};
use texts::widths::LONGEST_FOLD_TEXT;
use texts_writing::sizes::LONGEST_FOLD;

// A fold text that is read: its reader, and the words that this and the folding call are lent, each of full size.
#[derive(Drop)]
struct FoldText {
    reader: FoldReader,
    job: [u16; JOB_SIZE],
    layouts: [u16; PLACEMENTS_SIZE],
    plates: [u16; PLATES_SIZE],
    cuts: [u16; CUTS_SIZE],
    counts: [u16; COUNTS_SIZE],
}

impl Text for FoldText {
    ghost answer = { fold_text };

    ghost longest = { longest_fold_text };

    ghost longest_answer = { longest_fold };

    ghost after = { λ bytes t. After bytes t.reader (lent t.job t.layouts) };

    ghost MOST_PARTS = { most_parts longest_fold_text };

    const MOST_PARTS: usize = LONGEST_FOLD_TEXT / PART_SIZE + 1;

    fn start(&mut self) {
        self.reader = start(&mut self.job, &mut self.layouts);
    }

    fn feed(&mut self, part: &[u8]) {
        self.reader = feed(self.reader, part, &mut self.job, &mut self.layouts);
    }

    fn finish(&mut self, out: &mut [u8]) -> usize {
        finish(
            self.reader,
            &self.job,
            &self.layouts,
            &mut self.plates,
            &mut self.cuts,
            &mut self.counts,
            out,
        )
    }

    ghost decides = { enough.fold };

    ghost most = { refl };
}

// The program on any input and output, with room for any answer: reads a text and writes its answer. Where no read has failed, what is written is the answer
// to all the bytes that the input has. The error of a write that fails is handed back.
fn program<R: Read, W: Write>(input: &mut Input<R>, output: &mut W) -> io::Result<()>
    ensures written { OnOk result (WritesFrom fold_text (R.remaining input.old.reader) (R.remaining input.new.reader) input.new.failed (W.contents output.old) (W.contents output.new)) }
    ensures whole { input.new.failed ≡ false → OnOk result (IfSome (R.remaining input.old.reader) (λ text. Appends (W.contents output.old) (W.contents output.new) (fold_text text))) }
{
    let mut job = [0u16; JOB_SIZE];
    let mut layouts = [0u16; PLACEMENTS_SIZE];
    let mut text = FoldText {
        reader: start(&mut job, &mut layouts),
        job,
        layouts,
        plates: [0; PLATES_SIZE],
        cuts: [0; CUTS_SIZE],
        counts: [0; COUNTS_SIZE],
    };
    let mut part = [0u8; PART_SIZE];
    let mut out = [0u8; LONGEST_FOLD];
    run(&mut text, input, output, &mut part, &mut out)?;
    Ok(())
}

fn main(rt: HostRuntime) -> io::Result<()> {
    let mut input = Input::new(rt.stdin());
    let mut output = rt.stdout();
    program(&mut input, &mut output)
}

#[cfg(test)]
mod tests {
    use super::*;
    use std::test::Fail;

    // The text of `stdin`, of two board sizes.
    const TEXT: &[u8] = b"        1        2        0        2        2        0\n\
        \x20      10        0        9        7        3\n\
        \x20      10        1        9        3        1\n\
        \x20       2        1        5        4        2        0\n\
        \x20       2        2        3        3        3        0\n\
        \x20       7        1        0        1        1        1        1        0        0        0\n\
        \x20       7        2        0        1        1        1        1        0        0        0\n\
        \x20       7        3        1        1        1        1        2        0        0        0\n\
        \x20       7        3        1        1        2        1        2        3        0        0\n\
        \x20       7        3        1        1        3        1        2        6        0        0\n";

    const ANSWER: &[u8] =
        b"        3        0        1        2        9        7        1        0\n\
        \x20       3        1        2        1        9        3        1        0\n\
        \x20       3        5        2        1        6        3        2        0\n\
        \x20       3        6        2        1        3        3        2        0\n";

    // The bytes of the job's lines before its last.
    const BEGUN: usize = 202;

    // Line 5 is missing.
    const MISSING: &[u8] = b"        9        1        5\n";

    // A reader of which each read fails.
    #[derive(Drop)]
    struct Broken;

    impl Read for Broken {
        fn read(&mut self, _buf: &mut [u8]) -> io::Result<usize> {
            Err(io::Error::from(io::ErrorKind::Other))
        }
    }

    #[test]
    fn a_text_is_answered(rt: HostRuntime) -> Result<(), Fail> {
        let mut input = Input::new(TEXT);
        let mut output = Vec::new(rt.alloc());
        program(&mut input, &mut output)?;
        assert!(rt; !input.failed);
        assert_eq!(rt; output.as_slice(), ANSWER);
        Ok(())
    }

    #[test]
    fn a_failed_read_ends_the_text(rt: HostRuntime) -> Result<(), Fail> {
        let begun = &TEXT[..BEGUN];
        let mut input = Input::new(begun.chain(Broken));
        let mut output = Vec::new(rt.alloc());
        program(&mut input, &mut output)?;
        assert!(rt; input.failed);
        assert_eq!(rt; output.as_slice(), MISSING);
        Ok(())
    }

    #[test]
    fn a_failed_write_is_handed_back(rt: HostRuntime) {
        let mut input = Input::new(TEXT);
        let mut room = [0u8; 100];
        let mut output = room.as_mut_slice();
        let result = program(&mut input, &mut output);
        assert!(rt; result.is_err());
    }
}
