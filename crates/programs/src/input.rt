// An input, which is read in parts.
ghost use Rattle.std.specs.Prelude.{◌≡◌, ◌≤◌, ◌<◌, length, take, false};
ghost use Rattle.std.specs.Io.KnownBytes.{Consumes, IsAtEnd};

use std::io::Read;

// A reader, and whether a read of it has failed.
#[derive(Drop)]
pub struct Input<R> {
    pub reader: R,
    pub failed: bool,
}

impl<R: Read> Input<R> {
    // No read has failed yet.
    pub fn new(reader: R) -> Input<R>
        ensures reader { result.reader ≡ reader }
        ensures failed { result.failed ≡ false }
    {
        Input {
            reader,
            failed: false,
        }
    }

    // Reads until the part is full, the input ends or a read fails, one that a signal interrupts before it moves a byte among these, and hands back how
    // many bytes stand at the start of the part. These are the next that the reader gives; where they are fewer than the part holds and no read has failed,
    // the reader has no more.
    pub fn fill(&mut self, part: &mut [u8]) -> usize
        ensures within { result ≤ length part.new }
        ensures counted { result ≡ length (take result part.new) }
        ensures consumed { Consumes (R.remaining self.old.reader) (R.remaining self.new.reader) (take result part.new) }
        ensures ended { result < length part.new → self.new.failed ≡ false → IsAtEnd (R.remaining self.new.reader) }
    {
        let mut at = 0;
        while at < part.len() {
            match self.reader.read(&mut part[at..]) {
                Ok(0) => return at,
                Ok(n) => at += n,
                Err(_) => {
                    self.failed = true;
                    return at;
                }
            }
        }
        at
    }
}
