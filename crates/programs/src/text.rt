// A text that is read in parts from an input, and whose answer is written to an output.
ghost use Rattle.std.specs.Prelude.{◌≡◌, ℕ, List, [], ◌++◌, ◌≤◌, length, IfOk, OnOk, OnErr};
ghost use Rattle.std.specs.Io.KnownBytes.{Appends};
ghost use Rattle.columns.specs.Group.{put};
ghost use Rattle.programs.specs.Program.{part_size, most_parts, PartsDecide, ReadFrom, WholeAnswer, AnswersFrom, WritesFrom};

use crate::input::Input;
use std::io;
use std::io::{Read, Write};

// What a program keeps of its text, with all the words that it needs for the answer.
pub trait Text {
    // The answer to a text.
    ghost answer: { List ℕ → List ℕ };

    // The bytes of the longest text that its lines do not refuse, and of the longest answer.
    ghost longest: { ℕ };

    ghost longest_answer: { ℕ };

    // What is kept is that of the bytes so far.
    ghost after: { List ℕ → Self → Type 0 };

    // So many parts have more bytes than the longest text.
    ghost MOST_PARTS: { ℕ };

    const MOST_PARTS: usize;

    // Nothing is read yet.
    fn start(&mut self)
        ensures { after [] self.new };

    // One more part.
    fn feed(&mut self, part: &[u8])
        ensures { (text : List ℕ) → after text self.old → after (text ++ part.now) self.new };

    // A text that has been read ends: its answer stands at the start of the output, and the number of its bytes is handed back.
    fn finish(&mut self, out: &mut [u8]) -> usize
        requires read { (text : List ℕ) × after text self.old }
        requires room { longest_answer ≤ length out.old }
        ensures counted { (text : List ℕ) → after text self.old → result ≡ length (answer text) }
        ensures written { (text : List ℕ) → after text self.old → out.new ≡ put out.old 0 (answer text) };

    // So many parts decide the answer.
    ghost decides: { PartsDecide answer longest };

    ghost most: { MOST_PARTS ≡ most_parts longest };
}

// Reads a text, part after part, to its end, or so much of it that what follows cannot change the answer. The first read that gives less than a part
// ends the text, whether the input ends there or the read fails. How many bytes the last read gave is handed back.
fn read<T: Text, R: Read>(text: &mut T, input: &mut Input<R>, part: &mut [u8]) -> usize
    requires { part_size ≤ length part.old }
    ensures { ReadFrom T.answer (R.remaining input.old.reader) (R.remaining input.new.reader) input.new.failed (λ bs t _. T.after bs t) text.new (tt {0}) (length part.old) result }
{
    text.start();
    for parts in 0..T::MOST_PARTS {
        let n = input.fill(part);
        text.feed(&part[..n]);
        if n < part.len() {
            return n;
        }
    }
    part.len()
}

// Reads a text and leaves its answer at the start of the output; the number of its bytes is handed back.
fn answer<T: Text, R: Read>(
    text: &mut T,
    input: &mut Input<R>,
    part: &mut [u8],
    out: &mut [u8],
) -> usize
    requires part_size_in_bounds { part_size ≤ length part.old }
    requires room { T.longest_answer ≤ length out.old }
    ensures { AnswersFrom T.answer (R.remaining input.old.reader) (R.remaining input.new.reader) input.new.failed out.old result out.new }
{
    read(text, input, part);
    text.finish(out)
}

// Hands bytes to the write that are the answer to some text, whole; their number is handed back, or the error of a write that fails.
fn write_answer<T: Text, W: Write>(_text: &T, output: &mut W, bytes: &[u8]) -> io::Result<usize>
    requires { WholeAnswer T.answer bytes.now }
    ensures counted { IfOk result (λ n. n ≡ length bytes.now) }
    ensures written { OnOk result (Appends (W.contents output.old) (W.contents output.new) bytes.now) }
{
    output.write_all(bytes)?;
    Ok(bytes.len())
}

// Reads a text and writes its answer, which stands at the start of `out`; the number of bytes handed to the write is handed back, or the error of a write
// that fails.
pub fn run<T: Text, R: Read, W: Write>(
    text: &mut T,
    input: &mut Input<R>,
    output: &mut W,
    part: &mut [u8],
    out: &mut [u8],
) -> io::Result<usize>
    requires part_size_in_bounds { part_size ≤ length part.old }
    requires room { T.longest_answer ≤ length out.old }
    ensures answered { IfOk result (λ n. AnswersFrom T.answer (R.remaining input.old.reader) (R.remaining input.new.reader) input.new.failed out.old n out.new) }
    ensures failed { OnErr result ((n : ℕ) × AnswersFrom T.answer (R.remaining input.old.reader) (R.remaining input.new.reader) input.new.failed out.old n out.new) }
    ensures written { OnOk result (WritesFrom T.answer (R.remaining input.old.reader) (R.remaining input.new.reader) input.new.failed (W.contents output.old) (W.contents output.new)) }
{
    let n = answer(text, input, part, out);
    write_answer(text, output, &out[..n])
}
