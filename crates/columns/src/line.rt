// A line: its numbers in nine columns each, then byte 10.
ghost use Rattle.std.specs.Prelude.{◌≡◌, ◌+◌, ◌≤◌, length, drop};
ghost use Rattle.columns.specs.Widths.{most_numbers, line_bytes};
ghost use Rattle.columns.specs.Group.{put};
ghost use Rattle.columns.specs.Line.{line_of, numbers_of, line_from, CompleteAs};

use crate::group::{number_at, put_number};
use crate::widths::{GROUP, MOST_NUMBERS};

// The byte at the end of a line.
const END: u8 = b'\n';

// The line at a position, its end found as its numbers are read: how many numbers it has, if it has at most ten. They are written to the first places of a
// lent array, and what is behind them stays.
pub fn complete_line(s: &[u8], at: usize, numbers: &mut [u32; MOST_NUMBERS]) -> Option<usize>
    ensures { length numbers.old ≡ most_numbers → CompleteAs (drop at s.now) numbers.old numbers.new result }
{
    let mut p = at;
    for i in 0..MOST_NUMBERS + 1 {
        if s.len() <= p {
            return None;
        }
        if s[p] == END {
            return Some(i);
        }
        if i == MOST_NUMBERS {
            return None;
        }
        let n = number_at(s, p)?;
        numbers[i] = n;
        p += GROUP;
    }
    None
}

// The line of k numbers at a position, if it is of the form: its numbers, the kind first, then zeros.
pub fn line_at(s: &[u8], at: usize, k: usize) -> Option<[u32; MOST_NUMBERS]>
    requires { k ≤ most_numbers }
    ensures { result ≡ line_from (numbers_of k (drop at s.now)) }
{
    let mut numbers = [0u32; MOST_NUMBERS];
    let found = complete_line(s, at, &mut numbers)?;
    if found != k {
        return None;
    }
    Some(numbers)
}

// Writes a line at a position.
pub fn put_line(out: &mut [u8], at: usize, numbers: &[u32])
    requires { at + line_bytes (length numbers.now) ≤ length out.old }
    ensures { out.new ≡ put out.old at (line_of numbers.now) }
{
    let mut p = at;
    for &n in numbers {
        put_number(out, p, n);
        p += GROUP;
    }
    out[p] = END;
}
