// The next line of a text in a part: its numbers are taken in one place, whether it stands whole in the part or began before it.
ghost use Rattle.std.specs.Prelude.{◌≡◌, ◌≤◌, length};
ghost use Rattle.columns.specs.Widths.{most_numbers};
ghost use Rattle.texts_reading.specs.Standing.{TextReady};
ghost use Rattle.saw_text_reader.specs.NextLine.{NextAs};

use columns::widths::{GROUP, MOST_NUMBERS};
use texts::widths::LONGEST_LINE;
use texts_reading::scan::line_end;
use texts_reading::text::TextReader;

// A line that ends in the part, with how many numbers it has, or not of the form, and the place of its byte 10; or none ends there, and where the search ended.
#[derive(Clone, Copy, Debug, PartialEq, Eq)]
pub enum Next {
    Numbers(usize, usize),
    Malformed(usize),
    Rest(usize),
}

// The line of a text that has begun before a part or begins at `at`; its numbers are written to the first places of a lent array.
pub fn next_line(
    text: TextReader,
    part: &[u8],
    at: usize,
    numbers: &mut [u32; MOST_NUMBERS],
) -> Next
    requires text_ready { TextReady text }
    requires at_in_bounds { at ≤ length part.now }
    requires numbers_len { length numbers.old ≡ most_numbers }
    ensures { NextAs text part.now at numbers.new result }
{
    if let Some(k) = text.line_within(part, at, numbers) {
        let end = at + GROUP * k;
        return Next::Numbers(k, end);
    }
    let begun = text.pending.length;
    let end = line_end(part, at, LONGEST_LINE - begun);
    if !text.line_ends(at, end, part.len()) {
        return Next::Rest(end);
    }
    let Some(found) = text.pending.line(part, at, end + 1) else {
        return Next::Malformed(end);
    };
    *numbers = found;
    let groups = (begun + (end + 1 - at)) / GROUP;
    Next::Numbers(groups, end)
}
