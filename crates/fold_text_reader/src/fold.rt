// The reader of the fold text: its state goes in and comes back by value, beside lent words of the job and of the layouts.
ghost use Rattle.std.specs.Prelude.{◌≡◌, true, ◌++◌, ◌+◌, ◌-◌, length, take, drop};
ghost use Rattle.columns.specs.Line.{read_line};
ghost use Rattle.texts.specs.Reader.{longest_line, line_read};
ghost use Rattle.texts.specs.FoldText.{fold_grammar};
ghost use Rattle.texts_reading.specs.LineEnd.{LineEnd};
ghost use Rattle.texts_reading.specs.Standing.{line_ends};
ghost use Rattle.fold_text_reader.specs.FoldKept.{FoldReady, Step, Started, Fed};

use columns::widths::{GROUP, MOST_NUMBERS};
use job::refused::Refusal;
use job::words::clear;
use texts::widths::LONGEST_LINE;
use texts_reading::scan::line_end;
use texts_reading::text::TextReader;

// A fold text so far, and the number of its lines of kind 7; the words of the first 4,000 of them are kept in lent words.
#[derive(Clone, Copy)]
pub struct FoldReader {
    pub text: TextReader,
    pub rows: u32,
}

impl FoldReader {
    // A line that ends at `end` of a part: it began before the part or at `at`.
    fn line(
        self,
        part: &[u8],
        at: usize,
        end: usize,
        job: &mut [u16],
        layouts: &mut [u16],
    ) -> FoldReader
        requires fold_ready { FoldReady self job.old layouts.old }
        requires line_end { LineEnd part.now at (longest_line - self.text.pending.length) end }
        requires part_value { line_ends self.text at end (length part.now) ≡ true }
        ensures { Step (λ q. line_read fold_grammar q (read_line (q.pending ++ take (end + 1 - at) (drop at part.now)))) self job.old layouts.old result job.new layouts.new }
    {
        let pending = self.text.pending;
        let Some(numbers) = pending.line(part, at, end + 1) else {
            return self.refused(Refusal::Form.number());
        };
        let groups = (pending.length + (end + 1 - at)) / GROUP;
        self.numbers(&numbers[..groups], job, layouts)
    }

    // A part, where the state is sound and the lent words are of full size.
    fn feed_ready(self, part: &[u8], job: &mut [u16], layouts: &mut [u16]) -> FoldReader
        requires { FoldReady self job.old layouts.old }
        ensures { Fed part.now self job.old layouts.old result job.new layouts.new }
    {
        let mut reader = self;
        let mut at: usize = 0;
        while at < part.len() {
            let text = reader.text;
            let mut numbers = [0u32; MOST_NUMBERS];
            if let Some(k) = text.line_within(part, at, &mut numbers) {
                let end = at + GROUP * k;
                reader = reader.numbers(&numbers[..k], job, layouts);
                at = end + 1;
                continue;
            }
            let end = line_end(part, at, LONGEST_LINE - text.pending.length);
            if !text.line_ends(at, end, part.len()) {
                return FoldReader {
                    text: text.rest(part, at, end),
                    rows: reader.rows,
                };
            }
            reader = reader.line(part, at, end, job, layouts);
            at = end + 1;
        }
        reader
    }
}

// Nothing is read yet: every lent word becomes 0. The job takes 183 words, the layouts 36,000.
pub fn start(job: &mut [u16], layouts: &mut [u16]) -> FoldReader
    ensures { Started job.old layouts.old result job.new layouts.new }
{
    clear(job);
    clear(layouts);
    FoldReader {
        text: TextReader::start(),
        rows: 0,
    }
}

// One more part of a text: state and lent words are those of the definition for the bytes so far, so that any split of a text gives the same.
// Once a line is refused the rest is passed over without being looked at. A state that is not sound, or lent words shorter than their full size,
// are given back as they are.
pub fn feed(reader: FoldReader, part: &[u8], job: &mut [u16], layouts: &mut [u16]) -> FoldReader
    ensures { Fed part.now reader job.old layouts.old result job.new layouts.new }
{
    if !reader.ready(job, layouts) {
        return reader;
    }
    reader.feed_ready(part, job, layouts)
}
