// Numbers of a line as words of a lent buffer.
ghost use Rattle.std.specs.Prelude.{◌≡◌, ℕ, ◌+◌, ◌≤◌, ◌<◌, length, get_or};
ghost use Rattle.columns.specs.Group.{put};

// Writes numbers that are words at a position.
pub fn put_words(buffer: &mut [u16], at: usize, numbers: &[u32])
    requires { (at + length numbers.now ≤ length buffer.old) × ((k : ℕ) → k < length numbers.now → get_or numbers.now k 0 < 65536) }
    ensures { buffer.new ≡ put buffer.old at numbers.now }
{
    for i in 0..numbers.len() {
        buffer[at + i] = numbers[i] as u16;
    }
}
