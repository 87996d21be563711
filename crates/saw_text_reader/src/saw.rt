// The reader of the saw text: its state goes in and comes back by value, beside lent buffers.
ghost use Rattle.std.proofs.Math.Option.{some};
ghost use Rattle.std.specs.Prelude.{◌<◌};
ghost use Rattle.texts.specs.Reader.{max_lines, line_read};
ghost use Rattle.texts.specs.SawText.{saw_grammar};
ghost use Rattle.saw_text_lines.specs.SawKept.{lent};
ghost use Rattle.saw_text_reader.specs.SawFed.{NoneHeld, SawReady, Step, AfterLine, Started, Fed};

use crate::next::{Next, next_line};
use columns::widths::MOST_NUMBERS;
use job::head::head_of;
use job::refused::Refusal;
use job::words::clear;
use saw_text_body::model::Model;
use saw_text_body::plan_lines::PlanLines;
use saw_text_body::price_lines::no_prices;
use saw_text_lines::held::{SawHeld, Taken};
use saw_text_lines::numbers::{sound, take_numbers};
use texts_reading::text::TextReader;

// A saw text so far: where it stands, and what is kept of it beside the lent buffers.
#[derive(Clone, Copy)]
pub struct SawReader {
    pub text: TextReader,
    pub held: SawHeld,
}

// Nothing is kept yet.
fn none_held() -> SawHeld
    ensures { NoneHeld result }
{
    SawHeld {
        model: Model::Refused(1, 0),
        plan: PlanLines::none(),
        prices: no_prices(),
    }
}

// Nothing is read yet: every lent word becomes 0. The job takes 183 words, the prices 2,088.
pub fn start(
    job: &mut [u16],
    plates: &mut [u16],
    cuts: &mut [u16],
    counts: &mut [u16],
    prices: &mut [u16],
) -> SawReader
    ensures { Started (lent job.old plates.old cuts.old counts.old prices.old) result (lent job.new plates.new cuts.new counts.new prices.new) }
{
    clear(job);
    clear(plates);
    clear(cuts);
    clear(counts);
    clear(prices);
    SawReader {
        text: TextReader::start(),
        held: none_held(),
    }
}

impl SawReader {
    // The numbers of a line after those admitted.
    pub fn numbers(
        self,
        numbers: &[u32],
        job: &mut [u16],
        plates: &mut [u16],
        cuts: &mut [u16],
        counts: &mut [u16],
        prices: &mut [u16],
    ) -> SawReader
        requires saw_ready { SawReady self (lent job.old plates.old cuts.old counts.old prices.old) }
        requires lines_lt_max_lines { self.text.lines < max_lines }
        ensures { Step (λ q. line_read saw_grammar q (some numbers.now)) self (lent job.old plates.old cuts.old counts.old prices.old) result (lent job.new plates.new cuts.new counts.new prices.new) }
    {
        let place = self.text.place;
        let head = head_of(job);
        if !sound(place, head.sizes, self.held.prices.types) {
            return self;
        }
        let line = self.text.lines + 1;
        let taken = take_numbers(
            self.held, place, line, numbers, job, plates, cuts, counts, prices,
        );
        self.after_line(taken)
    }

    // The reader after the next line, by what was taken of it: the line is admitted, or the text is refused and all that is kept stays.
    fn after_line(self, taken: Result<Taken, Refusal>) -> SawReader
        requires { self.text.lines < max_lines }
        ensures { AfterLine self taken result }
    {
        match taken {
            Ok(taken) => SawReader {
                text: self.text.admitted(taken.place),
                held: taken.held,
            },
            Err(refusal) => SawReader {
                text: self.text.refused(refusal.number()),
                ..self
            },
        }
    }

    // A part, where the state is sound and the lent buffers are of full size.
    fn feed_ready(
        self,
        part: &[u8],
        job: &mut [u16],
        plates: &mut [u16],
        cuts: &mut [u16],
        counts: &mut [u16],
        prices: &mut [u16],
    ) -> SawReader
        requires { SawReady self (lent job.old plates.old cuts.old counts.old prices.old) }
        ensures { Fed part.now self (lent job.old plates.old cuts.old counts.old prices.old) result (lent job.new plates.new cuts.new counts.new prices.new) }
    {
        let mut reader = self;
        let mut at: usize = 0;
        while at < part.len() {
            let mut numbers = [0u32; MOST_NUMBERS];
            match next_line(reader.text, part, at, &mut numbers) {
                Next::Numbers(k, end) => {
                    let after = reader.numbers(&numbers[..k], job, plates, cuts, counts, prices);
                    let read = after.whole_lines(part, end + 1, job, plates, cuts, counts, prices);
                    reader = read.reader;
                    at = read.at;
                }
                Next::Malformed(end) => {
                    reader = SawReader {
                        text: reader.text.refused(Refusal::Form.number()),
                        ..reader
                    };
                    at = end + 1;
                }
                Next::Rest(end) => {
                    return SawReader {
                        text: reader.text.rest(part, at, end),
                        ..reader
                    };
                }
            }
        }
        reader
    }
}

// One more part of a text: state and lent buffers are those of the definition for the bytes so far, so that any split of a text gives the same.
// Once a line is refused the rest is passed over without being looked at. A state that is not sound, or lent buffers shorter than their full
// size, are given back as they are.
pub fn feed(
    reader: SawReader,
    part: &[u8],
    job: &mut [u16],
    plates: &mut [u16],
    cuts: &mut [u16],
    counts: &mut [u16],
    prices: &mut [u16],
) -> SawReader
    ensures { Fed part.now reader (lent job.old plates.old cuts.old counts.old prices.old) result (lent job.new plates.new cuts.new counts.new prices.new) }
{
    if !reader.ready(job, plates, cuts, counts, prices) {
        return reader;
    }
    reader.feed_ready(part, job, plates, cuts, counts, prices)
}
