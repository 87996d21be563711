// Lines 7: a line for each placement.
ghost use Rattle.std.specs.Prelude.{◌≡◌, ◌+◌, ◌*◌, ◌≤◌, length, take};
ghost use mathlib.Core.List.{flat_map};
ghost use Rattle.job.specs.Sizes.{words_of_placement, RecordIn};
ghost use Rattle.columns.specs.Group.{put};
ghost use Rattle.layouts.specs.Lines.{rows_of};
ghost use Rattle.placement.specs.PlacementRead.{placement_at};
ghost use Rattle.texts.specs.Widths.{placement_line_bytes};
ghost use Rattle.texts.specs.SawText.{placement_line};
ghost use Rattle.texts_writing.specs.Wrote.{Wrote};

use columns::line::put_line;
use placement::placement_at;
use texts::widths::PLACEMENT_LINE;

// Writes line 7 of the placement behind i others, the size of its board after the board: its type and its turn are those of the number that they make.
fn write_placement(out: &mut [u8], at: usize, placements: &[u16], i: usize)
    requires { (at + placement_line_bytes ≤ length out.old) × RecordIn words_of_placement i placements.now }
    ensures { out.new ≡ put out.old at (placement_line (placement_at placements.now i)) }
{
    let p = placement_at(placements, i);
    let q = 2 * (p.item.0 as u32) + (p.turned as u32);
    let line = [
        7,
        p.board as u32,
        p.size.0 as u32,
        p.strip as u32,
        p.stack as u32,
        p.place as u32,
        q / 2,
        p.x as u32,
        p.y as u32,
        q % 2,
    ];
    put_line(out, at, &line);
}

// Writes the lines 7 of the first placements at the start of the output; their end is handed back.
pub fn write_placements(out: &mut [u8], placements: &[u16], pieces: usize) -> usize
    requires { (placement_line_bytes * pieces ≤ length out.old) × (words_of_placement * pieces ≤ length placements.now) }
    ensures { Wrote out.old 0 (flat_map placement_line (rows_of (take (words_of_placement * pieces) placements.now))) result out.new }
{
    let mut at = 0;
    for i in 0..pieces {
        write_placement(out, at, placements, i);
        at += PLACEMENT_LINE;
    }
    at
}
