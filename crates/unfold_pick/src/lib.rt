// The pieces that wait while a board is cut, and which of them is taken next.
#![tactic(auto)]

ghost use Rattle.std.specs.Prelude.{◌≡◌, length};
ghost use Rattle.unfold_pick.specs.Next.{next_of, next_in};

use job::counters::PlateType;

// The place in which a piece of one stage waits: whether one is here, its plate type, and its lower left corner. `here` is no Option: docs/DECISIONS.md 25, `pick`
// over a lent slice of three piece structs.
#[derive(Clone, Copy, Debug, PartialEq, Eq)]
pub struct Piece {
    pub here: bool,
    pub plate: PlateType,
    pub x: u16,
    pub y: u16,
}

// Of the pieces of stages 1, 2 and 3, the one of the highest stage, with its stage; none where none waits.
fn choose(one: Piece, two: Piece, three: Piece) -> Option<(u16, Piece)>
    ensures { result ≡ next_of one two three }
{
    if three.here {
        Some((3, three))
    } else if two.here {
        Some((2, two))
    } else if one.here {
        Some((1, one))
    } else {
        None
    }
}

// The same of a lent slice, in which the piece of stage s stands at s - 1.
pub fn pick(ps: &[Piece]) -> Option<(u16, Piece)>
    requires { length ps.now ≡ 3 }
    ensures { result ≡ next_in ps.now }
{
    choose(ps[0], ps[1], ps[2])
}

// The same of three pieces passed by value.
pub fn next_of(one: Piece, two: Piece, three: Piece) -> Option<(u16, Piece)>
    ensures { result ≡ next_of one two three }
{
    pick(&[one, two, three])
}
