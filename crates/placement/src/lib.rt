// The placement of an item as words of a lent buffer, which is also a line of layout words: how it is written and how it is read.
#![tactic(auto)]

ghost use Rattle.std.specs.Prelude.{◌≡◌, List, [], ◌∷◌, ◌++◌, ◌+◌, ◌*◌, ◌^◌, ◌≤◌, ◌<◌, length};
ghost use Rattle.job.specs.Sizes.{words_of_placement, RecordIn};
ghost use Rattle.listing.specs.Holds.{Holds};
ghost use Rattle.layouts.specs.Placement.{Placement as Placed, placement_words};
ghost use Rattle.placement.specs.PlacementRead.{placement_in, line_in, line_at};

use job::counters::{ItemPosition, ItemType, PlateType};
use job::sizes::PLACEMENT_WORDS;

// The board of an item and the size of that board, the item's strip, stack and place, its type, where it lies, and 1 if it is turned, else 0.
#[derive(Clone, Copy, Debug, PartialEq, Eq)]
pub struct Placement {
    pub board: u16,
    pub size: PlateType,
    pub strip: u16,
    pub stack: u16,
    pub place: u16,
    pub item: ItemType,
    pub x: u16,
    pub y: u16,
    pub turned: u16,
}

impl Placement {
    // The number of its type in its turn.
    pub fn position(self) -> ItemPosition
        requires { 2 * self.item.0 + self.turned < 2 ^ 16 }
        ensures { result.0 ≡ (placement_in self).item }
    {
        ItemPosition(2 * self.item.0 + self.turned)
    }
}

// The placement that stands behind c others.
pub fn placement_at(words: &[u16], c: usize) -> Placement
    requires { RecordIn words_of_placement c words.now }
    ensures { line_in result ≡ line_at words.now c }
{
    let at = PLACEMENT_WORDS * c;
    Placement {
        board: words[at],
        size: PlateType(words[at + 1]),
        strip: words[at + 2],
        stack: words[at + 3],
        place: words[at + 4],
        item: ItemType(words[at + 5]),
        x: words[at + 6],
        y: words[at + 7],
        turned: words[at + 8],
    }
}

// Writes a placement behind the n that the buffer holds.
pub fn put_placement(words: &mut [u16], n: u16, p: Placement)
    requires { (RecordIn words_of_placement n words.old) × (p.turned ≤ 1) }
    ensures { (ps : List Placed) → length ps ≡ n → Holds words.old (placement_words ps) → Holds words.new (placement_words (ps ++ placement_in p ∷ [])) }
{
    let at = PLACEMENT_WORDS * (n as usize);
    words[at] = p.board;
    words[at + 1] = p.size.0;
    words[at + 2] = p.strip;
    words[at + 3] = p.stack;
    words[at + 4] = p.place;
    words[at + 5] = p.item.0;
    words[at + 6] = p.x;
    words[at + 7] = p.y;
    words[at + 8] = p.turned;
}
