// 15: board, strip, stack and place are the next in turn from 1, and the size is that of the board's first line.
ghost use Rattle.std.specs.Prelude.{◌≡◌, ◌+◌, ◌*◌, ◌^◌, ◌<◌, length};
ghost use Rattle.job.specs.Sizes.{words_of_placement};
ghost use Rattle.job.specs.Refused.{row_verdict};
ghost use Rattle.layouts.specs.Placement.{opened, turn};
ghost use Rattle.layouts.specs.Lines.{rows_of, same_turn, follows, turns};
ghost use Rattle.placement.specs.PlacementRead.{placement_in};

use job::counters::PlateType;
use job::refused::{Refusal, Refused};
use placement::{Placement, placement_at};

// Whether a line has this board, of this size, and this strip, stack and place.
#[tactic(auto, unfolding(layouts::specs::Lines::same_turn))]
fn same_turn(
    line: Placement,
    board: u32,
    size: PlateType,
    strip: u32,
    stack: u32,
    place: u32,
) -> bool
    ensures { result ≡ same_turn (placement_in line).turn (turn (opened board size.0) strip stack place) }
{
    line.board as u32 == board
        && line.size == size
        && line.strip as u32 == strip
        && line.stack as u32 == stack
        && line.place as u32 == place
}

// Whether a line is the next in turn after the last: the next place, stack or strip of its board, whose size it names, or the next board, of any size;
// what lies below it from 1 again.
#[tactic(auto, unfolding(layouts::specs::Lines::follows))]
fn follows(last: Placement, line: Placement) -> bool
    ensures { result ≡ follows (placement_in last).turn (placement_in line).turn }
{
    let board = last.board as u32;
    let size = last.size;
    let strip = last.strip as u32;
    let stack = last.stack as u32;
    let place = last.place as u32;
    same_turn(line, board, size, strip, stack, place + 1)
        || same_turn(line, board, size, strip, stack + 1, 1)
        || same_turn(line, board, size, strip + 1, 1, 1)
        || same_turn(line, board + 1, line.size, 1, 1, 1)
}

// 15 for the lowest of the lines, numbered from k, that is not the next in turn; the first is 1, 1, 1, 1, of any size.
pub fn turns_row(layouts: &[u16], lines: usize, k: usize) -> Result<(), Refused>
    requires { (length layouts.now ≡ words_of_placement * lines) × (k + lines < 2 ^ 64) }
    ensures { row_verdict result ≡ turns k (rows_of layouts.now) }
{
    if lines == 0 {
        return Ok(());
    }
    let first = placement_at(layouts, 0);
    if !same_turn(first, 1, first.size, 1, 1, 1) {
        return Err(Refusal::Turn.at(k));
    }
    for c in 1..lines {
        let last = placement_at(layouts, c - 1);
        let line = placement_at(layouts, c);
        if !follows(last, line) {
            return Err(Refusal::Turn.at(k + c));
        }
    }
    Ok(())
}
