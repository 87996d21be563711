// Where a line ends within a part of a text.
ghost use Rattle.std.specs.Prelude.{◌≤◌, length};
ghost use Rattle.texts_reading.specs.LineEnd.{LineEnd};

// The byte at the end of a line.
const END: u8 = b'\n';

// The place of the next byte 10 from `at` on; at most `most` bytes are passed over, and the part may end before.
pub fn line_end(part: &[u8], at: usize, most: usize) -> usize
    requires { at ≤ length part.now }
    ensures { LineEnd part.now at most result }
{
    for end in at..part.len() {
        if most <= end - at || part[end] == END {
            return end;
        }
    }
    part.len()
}
