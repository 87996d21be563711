// Where a text stands: what comes next, its lines so far, the line that has begun, and the first line refused.
ghost use Rattle.std.specs.Prelude.{◌≡◌, [], suc, ◌+◌, ◌≤◌, ◌<◌, length};
ghost use Rattle.columns.specs.Widths.{most_numbers};
ghost use Rattle.texts.specs.Reader.{max_lines, longest_line};
ghost use Rattle.texts_reading.specs.Standing.{TextAt, TextReady, line_ends, Rest};
ghost use Rattle.texts_reading.specs.Within.{Within};

use crate::pending::Pending;
use columns::line::complete_line;
use columns::widths::MOST_NUMBERS;
use job::counters::{ItemType, PlateType};
use job::refused::Refusal;
use texts::widths::{LONGEST_LINE, MAX_LINES};

// What comes next: line 1, line 10 of a size, line 2 of a type, the body, line 5 of a type, line 6 of a plate type, or nothing more.
#[derive(Clone, Copy, Debug, PartialEq, Eq)]
pub enum Place {
    First,
    Sizes(PlateType),
    Types(ItemType),
    Body,
    ItemPrices(ItemType),
    PlatePrices(PlateType),
    Done,
}

// A text so far: the first line refused, if `refusal` is not 0, is the one after `lines`. A host may hand back any number there, and `feed` keeps it (clause
// `state-same`), so it stays a number.
#[derive(Clone, Copy)]
pub struct TextReader {
    pub place: Place,
    pub lines: u32,
    pub refusal: u16,
    pub pending: Pending,
}

impl TextReader {
    // Nothing is read yet.
    pub fn start() -> TextReader
        ensures { TextAt result Place.First 0 0 [] }
    {
        TextReader {
            place: Place::First,
            lines: 0,
            refusal: 0,
            pending: Pending::none(),
        }
    }

    // The line after those admitted is refused.
    pub fn refused(self, number: u16) -> TextReader
        ensures { TextAt result self.place self.lines number [] }
    {
        TextReader {
            place: self.place,
            lines: self.lines,
            refusal: number,
            pending: Pending::none(),
        }
    }

    // One line more is admitted.
    pub fn admitted(self, place: Place) -> TextReader
        requires { self.lines < max_lines }
        ensures { TextAt result place (suc self.lines) 0 [] }
    {
        TextReader {
            place,
            lines: self.lines + 1,
            refusal: 0,
            pending: Pending::none(),
        }
    }

    // The line that begins at `at`, where the text goes on and none has begun before, if it is of the form and ends in the part: how many numbers it has,
    // which are written to the first places of a lent array.
    pub fn line_within(
        self,
        part: &[u8],
        at: usize,
        numbers: &mut [u32; MOST_NUMBERS],
    ) -> Option<usize>
        ensures { length numbers.old ≡ most_numbers → Within self part.now at numbers.new result }
    {
        if self.refusal != 0 || self.lines >= MAX_LINES || self.pending.length != 0 {
            return None;
        }
        complete_line(part, at, numbers)
    }

    // Whether a line ends at `end` of a part of `size` bytes, where it has begun before the part or at `at`.
    #[tactic(auto, unfolding(crate::specs::Standing::line_ends))]
    pub fn line_ends(self, at: usize, end: usize, size: usize) -> bool
        requires text_ready { TextReady self }
        requires at_le_end { (at ≤ end) × (end ≤ at + longest_line) }
        ensures { result ≡ line_ends self at end size }
    {
        self.refusal == 0
            && self.lines < MAX_LINES
            && end - at + self.pending.length < LONGEST_LINE
            && end < size
    }

    // The rest of a part in which no line ends: it is passed over, or kept, or begins line 100,000, or makes the line too long.
    pub fn rest(self, part: &[u8], at: usize, end: usize) -> TextReader
        requires text_ready { TextReady self }
        requires at_le_end { (at ≤ end) × ((end ≤ at + longest_line) × (end ≤ length part.now)) }
        ensures { Rest self part.now at end result }
    {
        if self.refusal != 0 {
            return self;
        }
        if self.lines >= MAX_LINES {
            return self.refused(Refusal::Form.number());
        }
        if end - at + self.pending.length >= LONGEST_LINE {
            return self.refused(Refusal::Form.number());
        }
        TextReader {
            place: self.place,
            lines: self.lines,
            refusal: 0,
            pending: self.pending.more(part, at, end),
        }
    }
}
