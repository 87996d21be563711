// The placement of an item that a step places.
ghost use Rattle.std.specs.Prelude.{◌≡◌, ◌≤◌};
ghost use Rattle.placement.specs.PlacementRead.{placement_in};
ghost use Rattle.unfold_step.specs.Meaning.{placed_of};

use crate::state::PlacedItem;
use job::counters::{ItemType, PlateType};
use placement::Placement;

// Where it comes in turn, on a board of a size, its type, where it lies, and its turn.
pub fn placement_of(p: PlacedItem, size: PlateType) -> Placement
    ensures { (placement_in result ≡ placed_of size.0 p) × (result.turned ≤ 1) }
{
    Placement {
        board: p.turn.board,
        size,
        strip: p.turn.strip,
        stack: p.turn.stack,
        place: p.turn.place,
        item: ItemType(p.item.0 / 2),
        x: p.x,
        y: p.y,
        turned: p.item.0 % 2,
    }
}
