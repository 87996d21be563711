// The saw program: a saw text comes from standard input in parts, and its answer goes to standard output.
#![tactic(auto)]

ghost use Rattle.std.specs.Prelude.{◌≡◌, refl, false, IfSome, OnOk};
ghost use Rattle.std.specs.Io.KnownBytes.{Appends};
ghost use Rattle.texts.specs.SawText.{saw_text};
ghost use Rattle.texts.specs.TextLaws.{longest_saw_text};
ghost use Rattle.texts_writing.specs.Wrote.{longest_saw};
ghost use Rattle.saw_text_lines.specs.SawKept.{lent};
ghost use Rattle.saw_text_reader.specs.Parts.{After};
ghost use Rattle.programs.specs.Program.{most_parts, WritesFrom};
ghost use Rattle.programs.proofs.Decided.{enough};

use job::sizes::{COUNTS_SIZE, CUTS_SIZE, JOB_SIZE, PLACEMENTS_SIZE, PLATES_SIZE, PRICES_SIZE};
use programs::input::Input;
use programs::parts::PART_SIZE;
use programs::text::{Text, run};
use saw_text_ending::finish::finish_listed;
use saw_text_reader::saw::{SawReader, feed, start};
use std::io;
use std::io::{Read, Write};
use texts::widths::LONGEST_SAW_TEXT;
use texts_writing::sizes::LONGEST_SAW;

// A saw text that is read: its reader, and the words that this and the listing are lent, each of full size.
#[derive(Drop)]
struct SawText {
    reader: SawReader,
    job: [u16; JOB_SIZE],
    plates: [u16; PLATES_SIZE],
    cuts: [u16; CUTS_SIZE],
    counts: [u16; COUNTS_SIZE],
    prices: [u16; PRICES_SIZE],
    placements: [u16; PLACEMENTS_SIZE],
}

impl Text for SawText {
    ghost answer = { saw_text };

    ghost longest = { longest_saw_text };

    ghost longest_answer = { longest_saw };

    ghost after = { λ bytes t. After bytes t.reader (lent t.job t.plates t.cuts t.counts t.prices) };

    ghost MOST_PARTS = { most_parts longest_saw_text };

    const MOST_PARTS: usize = LONGEST_SAW_TEXT / PART_SIZE + 1;

    fn start(&mut self) {
        self.reader = start(
            &mut self.job,
            &mut self.plates,
            &mut self.cuts,
            &mut self.counts,
            &mut self.prices,
        );
    }

    fn feed(&mut self, part: &[u8]) {
        self.reader = feed(
            self.reader,
            part,
            &mut self.job,
            &mut self.plates,
            &mut self.cuts,
            &mut self.counts,
            &mut self.prices,
        );
    }

    fn finish(&mut self, out: &mut [u8]) -> usize {
        finish_listed(
            self.reader,
            &self.job,
            &self.plates,
            &self.cuts,
            &self.counts,
            &self.prices,
            &mut self.placements,
            out,
        )
    }

    ghost decides = { enough.saw };

    ghost most = { refl };
}

// The program on any input and output, with room for any answer: reads a text and writes its answer. Where no read has failed, what is written is the answer
// to all the bytes that the input has. The error of a write that fails is handed back.
fn program<R: Read, W: Write>(input: &mut Input<R>, output: &mut W) -> io::Result<()>
    ensures written { OnOk result (WritesFrom saw_text (R.remaining input.old.reader) (R.remaining input.new.reader) input.new.failed (W.contents output.old) (W.contents output.new)) }
    ensures whole { input.new.failed ≡ false → OnOk result (IfSome (R.remaining input.old.reader) (λ text. Appends (W.contents output.old) (W.contents output.new) (saw_text text))) }
{
    let mut job = [0u16; JOB_SIZE];
    let mut plates = [0u16; PLATES_SIZE];
    let mut cuts = [0u16; CUTS_SIZE];
    let mut counts = [0u16; COUNTS_SIZE];
    let mut prices = [0u16; PRICES_SIZE];
    let mut text = SawText {
        reader: start(&mut job, &mut plates, &mut cuts, &mut counts, &mut prices),
        job,
        plates,
        cuts,
        counts,
        prices,
        placements: [0; PLACEMENTS_SIZE],
    };
    let mut part = [0u8; PART_SIZE];
    let mut out = [0u8; LONGEST_SAW];
    run(&mut text, input, output, &mut part, &mut out)?;
    Ok(())
}

fn main(rt: HostRuntime) -> io::Result<()> {
    let mut input = Input::new(rt.stdin());
    let mut output = rt.stdout();
    program(&mut input, &mut output)
}

#[cfg(test)]
mod tests {
    use super::*;
    use std::test::Fail;

    // Job A of the README, its plan and its prices.
    const TEXT: &[u8] = b"        1        2        0        1        2        0\n\
        \x20      10        0        9        7        1\n\
        \x20       2        1        5        4        2        0\n\
        \x20       2        2        3        3        3        0\n\
        \x20       3        0        1        2        9        7        1        0\n\
        \x20       3        1        2        1        9        3        1        0\n\
        \x20       3        2        2        1        4        4        2        0\n\
        \x20       3        4        2        1        6        3        2        0\n\
        \x20       4        1        2        5\n\
        \x20       5        1        1\n\
        \x20       5        2        0\n\
        \x20       6        1        0\n\
        \x20       6        2        0\n\
        \x20       6        3        1\n\
        \x20       6        4        0\n\
        \x20       6        5        0\n";

    const ANSWER: &[u8] =
        b"        7        1        0        1        1        1        1        0        0        0\n\
        \x20       7        1        0        1        2        1        2        5        0        0\n\
        \x20       7        1        0        2        1        1        2        0        4        0\n\
        \x20       7        1        0        2        2        1        2        3        4        0\n\
        \x20       7        2        0        1        1        1        1        0        0        0\n\
        \x20       8        2        2        1        1\n";

    // The bytes of the job's lines before its last.
    const BEGUN: usize = 156;

    // Line 4 is missing.
    const MISSING: &[u8] = b"        9        1        4\n";

    // A reader of which each read fails.
    #[derive(Drop)]
    struct Broken;

    impl Read for Broken {
        fn read(&mut self, _buf: &mut [u8]) -> io::Result<usize> {
            Err(io::Error::from(io::ErrorKind::Other))
        }
    }

    #[test]
    fn a_text_is_answered(rt: HostRuntime) -> Result<(), Fail> {
        let mut input = Input::new(TEXT);
        let mut output = Vec::new(rt.alloc());
        program(&mut input, &mut output)?;
        assert!(rt; !input.failed);
        assert_eq!(rt; output.as_slice(), ANSWER);
        Ok(())
    }

    #[test]
    fn a_failed_read_ends_the_text(rt: HostRuntime) -> Result<(), Fail> {
        let begun = &TEXT[..BEGUN];
        let mut input = Input::new(begun.chain(Broken));
        let mut output = Vec::new(rt.alloc());
        program(&mut input, &mut output)?;
        assert!(rt; input.failed);
        assert_eq!(rt; output.as_slice(), MISSING);
        Ok(())
    }

    #[test]
    fn a_failed_write_is_handed_back(rt: HostRuntime) {
        let mut input = Input::new(TEXT);
        let mut room = [0u8; 100];
        let mut output = room.as_mut_slice();
        let result = program(&mut input, &mut output);
        assert!(rt; result.is_err());
    }
}
