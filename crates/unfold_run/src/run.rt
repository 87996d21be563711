// The run of an unfolding: step after step, board after board, within a budget of steps.
ghost use Rattle.std.specs.Prelude.{◌≡◌, List, [], ℕ, suc, ◌≤◌, length};
ghost use Rattle.job.specs.Sizes.{max_pieces, max_offcuts, placements_size};
ghost use Rattle.listing.specs.Holds.{Holds};
ghost use Rattle.layouts.specs.Unfold.{Run};
ghost use Rattle.layouts.specs.Offcuts.{Offcut};
ghost use Rattle.layouts.specs.Demand3.{J, L};
ghost use Rattle.unfold_step.specs.Ready.{PartsLent};
ghost use Rattle.unfold_run.specs.Going.{GoingAt, GoesOn, Advanced, ran_at, Gives, started, started_offcuts};

use crate::remaining::Remaining;
use job::counters::{BoardSizes, PlateType};
use placement::put_placement;
use unfold_offcut::{Lengths, list_offcut, offcut_of};
use unfold_step::placements::placement_of;
use unfold_step::state::{State, Step};
use unfold_waiting::left::boards_left;
use unfold_waiting::turn::MAX_STEPS;

// Where a run stands: its state, the size of the board, the boards of that size that are left to be opened, the items placed, and the pieces left over.
#[derive(Clone, Copy, Debug, PartialEq, Eq)]
pub struct Progress {
    pub state: State,
    pub size: PlateType,
    pub boards: u32,
    pub pieces: u16,
    pub offcuts: u16,
}

// The boards used, the items placed, and the pieces left over.
#[derive(Clone, Copy, Debug, PartialEq, Eq)]
pub struct Ran {
    pub boards: u16,
    pub pieces: u16,
    pub offcuts: u16,
}

impl Progress {
    // What the run has given so far.
    fn ran(self) -> Ran
        ensures { result ≡ ran_at self }
    {
        Ran {
            boards: self.state.turn.board,
            pieces: self.pieces,
            offcuts: self.offcuts,
        }
    }

    // One step: an item is placed, a piece is left over, or the next board is opened, of the lowest size that has boards left. Where nothing waits and no
    // board is left the run has ended, and there is no further progress.
    fn advance(
        self,
        job: &[u16],
        blade: u16,
        sizes: BoardSizes,
        plates: &[u16],
        cuts: &[u16],
        begins: &[u16],
        lengths: Lengths,
        counts: &mut [u16],
        placements: &mut [u16],
        offcuts: &mut [u16],
    ) -> Option<Progress>
        requires parts_lent { PartsLent job.now plates.now cuts.now begins.now }
        requires goes_on { GoesOn (J job.now) (L job.now) lengths self counts.old placements.old offcuts.old }
        requires blade_value { (blade ≡ (J job.now).blade) × (sizes.0 ≡ length (J job.now).sizes) }
        ensures { (whole : Run) (os : List Offcut) (fuel : ℕ) → GoingAt (J job.now) (L job.now) lengths whole os (suc fuel) self counts.old placements.old offcuts.old → Advanced (J job.now) (L job.now) lengths whole os fuel self result counts.new placements.new offcuts.new }
    {
        let size = self.size;
        let left = Remaining {
            size,
            boards: self.boards,
        };
        match self.state.step(job, blade, plates, cuts, begins, counts) {
            Step::Placed(item, state) => {
                put_placement(placements, self.pieces, placement_of(item, size));
                Some(Progress {
                    state,
                    boards: left.after(item.plate),
                    pieces: self.pieces + 1,
                    ..self
                })
            }
            Step::LeftOver(piece, state) => {
                let o = offcut_of(plates, self.state.turn.board, size, piece);
                list_offcut(offcuts, self.offcuts, o, lengths);
                Some(Progress {
                    state,
                    offcuts: self.offcuts + 1,
                    ..self
                })
            }
            Step::Idle => {
                let open = left.next(sizes, counts, begins);
                if open.boards == 0 {
                    return None;
                }
                Some(Progress {
                    state: self.state.open_board(open.size),
                    size: open.size,
                    boards: open.boards,
                    ..self
                })
            }
        }
    }
}

// The whole unfolding of the counts, with the job's blade and its number of sizes; `begins` says where the cuts of each plate type begin. Its offcuts are
// listed where the list is of full size; their number is given in any case.
// What it reads stands in its arguments one by one, and not in a struct: what may not change (docs/requests/07-own-cuts.md names `run`).
pub fn run(
    job: &[u16],
    blade: u16,
    sizes: BoardSizes,
    plates: &[u16],
    cuts: &[u16],
    begins: &[u16],
    lengths: Lengths,
    counts: &mut [u16],
    placements: &mut [u16],
    offcuts: &mut [u16],
) -> Ran
    requires parts_lent { PartsLent job.now plates.now cuts.now begins.now }
    requires job_in_bounds { (length (L job.now).cuts ≤ length counts.old) × (sizes.0 ≡ length (J job.now).sizes) }
    requires holds { (Holds placements.old []) × (placements_size ≤ length placements.old) }
    requires counts_len_bound { (length (started (J job.now) (L job.now) counts.old).placements ≤ max_pieces) × (length (started_offcuts (J job.now) (L job.now) counts.old) ≤ max_offcuts) }
    requires holds_2 { Holds offcuts.old [] }
    requires blade_value { blade ≡ (J job.now).blade }
    ensures { Gives lengths (started (J job.now) (L job.now) counts.old) (started_offcuts (J job.now) (L job.now) counts.old) result placements.new offcuts.new }
{
    let first = PlateType(0);
    let mut at = Progress {
        state: State::start(),
        size: first,
        boards: boards_left(counts, begins, first),
        pieces: 0,
        offcuts: 0,
    };
    for _step in 0..MAX_STEPS {
        let Some(next) = at.advance(
            job, blade, sizes, plates, cuts, begins, lengths, counts, placements, offcuts,
        ) else {
            return at.ran();
        };
        at = next;
    }
    at.ran()
}
