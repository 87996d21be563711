// The boards of a set of layout lines, and what they cost.
ghost use Rattle.std.specs.Prelude.{◌≡◌, ◌+◌, ◌*◌, ◌≤◌, ◌<◌, length, drop};
ghost use Rattle.job.specs.Sizes.{max_pieces};
ghost use Rattle.job.specs.Job.{board_sizes, job_of};
ghost use Rattle.layouts.specs.Placement.{set_cost};
ghost use Rattle.layouts.specs.Lines.{rows_of, set_of};
ghost use Rattle.layouts_strips.specs.Measures.{max_word};
ghost use Rattle.fold_call.specs.Boarded.{WithBoard};

use job::counters::PlateType;
use job::words::size_at;
use layouts_strips::begins::Begins;
use layouts_strips::lines::Lines;

// The boards that have ended, what they cost together, and the size of the board that goes on.
#[derive(Clone, Copy, Debug, PartialEq, Eq)]
pub struct Boards {
    pub number: u16,
    pub cost: u32,
    pub size: PlateType,
}

// One board more where the line behind c others begins another; past the last line a board has ended too.
fn with_board(lines: &Lines, c: usize, at: Boards) -> Boards
    requires c_le_lines { c ≤ lines.now.number }
    requires number_lt_max_word { (at.number < max_word) × ((at.cost ≤ max_word * max_pieces) × (at.size.0 < board_sizes lines.now.job.now)) }
    ensures { (WithBoard (job_of lines.now.job.now) (drop c (rows_of lines.now.layouts.now)) at result) × (result.cost ≤ at.cost + max_word) }
{
    match lines.begins_at(c) {
        Begins::Place | Begins::Stack | Begins::Strip => at,
        Begins::Board => {
            let size = size_at(lines.job, at.size);
            Boards {
                number: at.number + 1,
                cost: at.cost + size.cost as u32,
                size: lines.size_named(c),
            }
        }
    }
}

// The number of boards, and their costs added up.
pub fn count_boards(lines: &Lines) -> Boards
    ensures { (result.number ≡ length (set_of lines.now.layouts.now)) × (result.cost ≡ set_cost (job_of lines.now.job.now) (set_of lines.now.layouts.now)) }
{
    let mut at = Boards {
        number: 0,
        cost: 0,
        size: lines.size_named(0),
    };
    for c in 0..lines.number {
        at = with_board(lines, c + 1, at);
    }
    at
}
