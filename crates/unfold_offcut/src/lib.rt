// The offcut that a piece left over is, as words of a lent buffer.
#![tactic(auto)]

ghost use Rattle.std.specs.Prelude.{◌≡◌, List, [], ◌∷◌, ◌++◌, ◌≤◌, ◌<◌, length};
ghost use Rattle.job.specs.Sizes.{words_of_plate, words_of_offcut, max_offcuts, offcuts_size, RecordIn};
ghost use Rattle.job.specs.Job.{Job};
ghost use Rattle.listing.specs.Listing.{Listing};
ghost use Rattle.listing.specs.Records.{plate_words};
ghost use Rattle.listing.specs.Holds.{Holds};
ghost use Rattle.layouts.specs.Placement.{opened};
ghost use Rattle.layouts.specs.Offcuts.{Offcut as LeftPart, offcut, usable, offcut_words};
ghost use Rattle.unfold_waiting.specs.Meaning.{piece_of};
ghost use Rattle.unfold_offcut.specs.Meaning.{offcut_in};

use job::counters::PlateType;
use job::sizes::{OFFCUT_WORDS, OFFCUTS_SIZE};
use listing::words::plate_at;
use unfold_pick::Piece;

// The two set lengths: an offcut is usable if its width reaches the first and its height the second.
#[derive(Clone, Copy, Debug, PartialEq, Eq)]
pub struct Lengths {
    pub first: u16,
    pub second: u16,
}

// The board of a piece left over, the size of that board, the piece's lower left corner, and its sides.
#[derive(Clone, Copy, Debug, PartialEq, Eq)]
pub struct Offcut {
    pub board: u16,
    pub size: PlateType,
    pub x: u16,
    pub y: u16,
    pub width: u16,
    pub height: u16,
}

// 1 if an offcut is usable, else 0.
fn usable(o: Offcut, lengths: Lengths) -> u16
    ensures { result ≡ usable lengths.first lengths.second (offcut_in o) }
{
    if lengths.first <= o.width && lengths.second <= o.height {
        1
    } else {
        0
    }
}

// The offcut of a piece on a board of a size: its sides are those of its plate type.
#[tactic(auto, unfolding(layouts::specs::Offcuts::offcut, listing::specs::Listing::plate_at))]
pub fn offcut_of(plates: &[u16], board: u16, size: PlateType, p: Piece) -> Offcut
    requires { RecordIn words_of_plate p.plate.0 plates.now }
    ensures { (job : Job) (l : Listing) → Holds plates.now (plate_words job l.plates) → offcut_in result ≡ offcut l (opened board size.0) (piece_of p) }
{
    let plate = plate_at(plates, p.plate);
    Offcut {
        board,
        size,
        x: p.x,
        y: p.y,
        width: plate.width,
        height: plate.height,
    }
}

// Writes an offcut behind the n that the buffer holds. Of its board it names the number.
fn put_offcut(words: &mut [u16], n: u16, o: Offcut, lengths: Lengths)
    requires { RecordIn words_of_offcut n words.old }
    ensures { (os : List LeftPart) → length os ≡ n → Holds words.old (offcut_words lengths.first lengths.second os) → Holds words.new (offcut_words lengths.first lengths.second (os ++ offcut_in o ∷ [])) }
{
    let at = OFFCUT_WORDS * (n as usize);
    words[at] = o.board;
    words[at + 1] = o.x;
    words[at + 2] = o.y;
    words[at + 3] = o.width;
    words[at + 4] = o.height;
    words[at + 5] = usable(o, lengths);
}

// The same in a list of full size. A shorter one is no list, and nothing is written.
pub fn list_offcut(offcuts: &mut [u16], n: u16, o: Offcut, lengths: Lengths)
    requires { n < max_offcuts }
    ensures { offcuts_size ≤ length offcuts.old → (os : List LeftPart) → length os ≡ n → Holds offcuts.old (offcut_words lengths.first lengths.second os) → Holds offcuts.new (offcut_words lengths.first lengths.second (os ++ offcut_in o ∷ [])) }
{
    if OFFCUTS_SIZE <= offcuts.len() {
        put_offcut(offcuts, n, o, lengths);
    }
}
