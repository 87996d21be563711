// Parts of readers that give a few bytes at a time, and then end or fail.
use crate::input::Input;
use std::io;
use std::io::Read;

#[derive(Drop)]
struct Pieces<'a> {
    bytes: &'a [u8],
    piece: usize,
    fails: bool,
}

impl Read for Pieces<'_> {
    fn read(&mut self, buf: &mut [u8]) -> io::Result<usize> {
        if self.fails && self.bytes.is_empty() {
            return Err(io::Error::from(io::ErrorKind::Other));
        }
        let room = self.piece.min(buf.len());
        self.bytes.read(&mut buf[..room])
    }
}

#[test]
fn parts_are_filled_by_pieces(rt: HostRuntime) {
    for (piece, fails) in [(1, false), (2, true), (3, false), (4, true), (9, false)] {
        let mut input = Input::new(Pieces {
            bytes: b"0123456789",
            piece,
            fails,
        });
        let mut part = [0u8; 4];
        assert_eq!(rt; input.fill(&mut part), 4, "in pieces of {piece}");
        assert_eq!(rt; part, *b"0123");
        assert_eq!(rt; input.fill(&mut part), 4, "in pieces of {piece}");
        assert_eq!(rt; part, *b"4567");
        assert!(rt; !input.failed);
        assert_eq!(rt; input.fill(&mut part), 2, "in pieces of {piece}");
        assert_eq!(rt; part, *b"8967");
        assert_eq!(rt; input.failed, fails);
    }
}
