// The line that has begun: its bytes so far, and the line once it is whole.
ghost use Rattle.std.specs.Prelude.{IfSome, ◌≡◌, List, [], ◌++◌, ℕ, ◌+◌, ◌-◌, ◌≤◌, length, take, drop};
ghost use Rattle.columns.specs.Group.{put};
ghost use Rattle.columns.specs.Widths.{most_numbers};
ghost use Rattle.columns.specs.Line.{read_line, line_from};
ghost use Rattle.texts.specs.Reader.{longest_line};
ghost use Rattle.texts_reading.specs.Begun.{Begun};

use columns::line::line_at;
use columns::widths::{GROUP, MOST_NUMBERS};
use texts::widths::LONGEST_LINE;

// The bytes of the line that has begun, and zeros behind them.
#[derive(Clone, Copy)]
pub struct Pending {
    pub bytes: [u8; LONGEST_LINE],
    pub length: usize,
}

// Writes bytes at a position.
fn put_bytes(buffer: &mut [u8; LONGEST_LINE], at: usize, bytes: &[u8])
    requires { at + length bytes.now ≤ longest_line }
    ensures { length buffer.old ≡ longest_line → buffer.new ≡ put buffer.old at bytes.now }
{
    buffer[at..at + bytes.len()].copy_from_slice(bytes);
}

// The line of n bytes, byte 10 included, at a position, if it is of the form: its numbers, then zeros.
fn line_of(s: &[u8], at: usize, n: usize) -> Option<[u32; MOST_NUMBERS]>
    requires { n ≤ longest_line }
    ensures { (IfSome result (λ ns. length ns ≡ most_numbers)) × (at + n ≤ length s.now → result ≡ line_from (read_line (take n (drop at s.now)))) }
{
    let k = n / GROUP;
    if n != GROUP * k + 1 {
        return None;
    }
    line_at(s, at, k)
}

impl Pending {
    // No line has begun.
    pub fn none() -> Pending
        ensures { Begun result [] }
    {
        Pending {
            bytes: [0; LONGEST_LINE],
            length: 0,
        }
    }

    // The bytes of a part from `at` to `end` behind those of the line.
    pub fn more(self, part: &[u8], at: usize, end: usize) -> Pending
        requires { (at ≤ end) × ((end ≤ length part.now) × (self.length + (end - at) ≤ longest_line)) }
        ensures { (result.length ≡ self.length + (end - at)) × ((bs : List ℕ) → Begun self bs → Begun result (bs ++ take (end - at) (drop at part.now))) }
    {
        let mut bytes = self.bytes;
        put_bytes(&mut bytes, self.length, &part[at..end]);
        Pending {
            bytes,
            length: self.length + (end - at),
        }
    }

    // The line that ends before `end`, byte 10 included, if it is of the form: in place where it began in this part.
    pub fn line(self, part: &[u8], at: usize, end: usize) -> Option<[u32; MOST_NUMBERS]>
        requires { (at ≤ end) × ((end ≤ length part.now) × (self.length + (end - at) ≤ longest_line)) }
        ensures { (IfSome result (λ ns. length ns ≡ most_numbers)) × ((bs : List ℕ) → Begun self bs → result ≡ line_from (read_line (bs ++ take (end - at) (drop at part.now)))) }
    {
        if self.length == 0 {
            return line_of(part, at, end - at);
        }
        let whole = self.more(part, at, end);
        line_of(&whole.bytes, 0, whole.length)
    }
}
