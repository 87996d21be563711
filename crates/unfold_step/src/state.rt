// The state of an unfolding and its step: the piece of the highest stage is cut, or is left over.
ghost use Rattle.std.specs.Prelude.{◌≡◌, List, ℕ, ◌+◌};
ghost use Rattle.plan.specs.Plan.{boards_of};
ghost use Rattle.layouts.specs.Placement.{opened, turn};
ghost use Rattle.layouts.specs.Unfold.{nothing_waits, spent, taken, done, step, open_board};
ghost use Rattle.layouts.specs.Demand3.{J, L};
ghost use Rattle.unfold_waiting.specs.Meaning.{piece_of, waiting_of, turn_of};
ghost use Rattle.unfold_waiting.specs.Turns.{TurnTo, max_steps};
ghost use Rattle.unfold_step.specs.Meaning.{state_of, step_means, step_spends, counts_after};
ghost use Rattle.unfold_step.specs.Ready.{JobLent, PartsLent, Cuttable, ReadyOn};

use job::counters::{CutNumber, ItemPosition, PlateType};
use job::position::position_at;
use listing::cut::cut_at;
use unfold_pick::{Piece, next_of};
use unfold_waiting::search::{find_cut, spend};
use unfold_waiting::turn::Turn;
use unfold_waiting::waiting::Waiting;

// The pieces that wait, and where the last item was placed. The counts that are left and the size of the board stand beside it.
#[derive(Clone, Copy, Debug, PartialEq, Eq)]
pub struct State {
    pub waiting: Waiting,
    pub turn: Turn,
}

// An item that is placed: where it comes in turn, the plate type that it is cut from, its type in its turn, and where it lies.
#[derive(Clone, Copy, Debug, PartialEq, Eq)]
pub struct PlacedItem {
    pub turn: Turn,
    pub plate: PlateType,
    pub item: ItemPosition,
    pub x: u16,
    pub y: u16,
}

// What a step does: an item is placed, a piece is left over, or nothing waits.
#[derive(Clone, Copy, Debug, PartialEq, Eq)]
pub enum Step {
    Placed(PlacedItem, State),
    LeftOver(Piece, State),
    Idle,
}

impl State {
    // Before the first board.
    pub fn start() -> State
        ensures { (z : ℕ) (ns : List ℕ) → state_of z result ns ≡ record { counts = ns; waiting = nothing_waits; turn = turn (opened 0 z) 0 0 0 } }
    {
        State {
            waiting: Waiting::nothing(),
            turn: Turn::none(),
        }
    }

    // The next board, of size j, waits.
    pub fn open_board(self, j: PlateType) -> State
        requires { TurnTo max_steps (turn_of 0 self.turn) }
        ensures { (z : ℕ) (ns : List ℕ) → state_of j.0 result ns ≡ open_board j.0 (state_of z self ns) }
    {
        State {
            waiting: Waiting::board(j),
            turn: self.turn.next_board(),
        }
    }

    // Cut c is done on the piece p, of a stage, which waits no more: the item lies in its lower left corner, and kept residuals wait, each past the blade.
    fn cut(
        self,
        job: &[u16],
        blade: u16,
        plates: &[u16],
        cuts: &[u16],
        c: CutNumber,
        counts: &mut [u16],
        stage: u16,
        p: Piece,
    ) -> Step
        requires job_lent { JobLent job.now plates.now cuts.now }
        requires ready_on { ReadyOn (J job.now) (L job.now) self counts.old }
        requires cuttable { Cuttable (J job.now) (L job.now) counts.old c.0 (piece_of p) }
        requires blade_value { blade ≡ (J job.now).blade }
        ensures by_index { (z : ℕ) → step_means z result counts.new ≡ done (J job.now) (L job.now) (state_of z self counts.old) (taken (piece_of p) stage (waiting_of self.waiting)) c.0 }
        ensures counts_after { counts.new ≡ spent counts.old c.0 }
        ensures by_index_2 { (j : ℕ) → boards_of (L job.now) j counts.old ≡ step_spends j result + boards_of (L job.now) j counts.new }
    {
        let waiting = self.waiting;
        spend(counts, c);
        let cut = cut_at(cuts, c);
        let item = position_at(job, cut.item);
        let turn = self.turn.next(stage);
        let beside = waiting.wait(plates, cut.right, p.x + item.width + blade, p.y);
        let both = beside.wait(plates, cut.top, p.x, p.y + item.height + blade);
        Step::Placed(
            PlacedItem {
                turn,
                plate: cut.plate,
                item: cut.item,
                x: p.x,
                y: p.y,
            },
            State {
                waiting: both,
                turn,
            },
        )
    }

    // One step, on a board of whichever size: of the pieces that wait the one of the highest stage is cut, or is left over.
    // What it reads stands in its arguments one by one, and not in a struct: what may not change (docs/DECISIONS.md 25 names `State::step`).
    pub fn step(
        self,
        job: &[u16],
        blade: u16,
        plates: &[u16],
        cuts: &[u16],
        begins: &[u16],
        counts: &mut [u16],
    ) -> Step
        requires parts_lent { PartsLent job.now plates.now cuts.now begins.now }
        requires ready_on { ReadyOn (J job.now) (L job.now) self counts.old }
        requires blade_value { blade ≡ (J job.now).blade }
        ensures by_index { (z : ℕ) → step_means z result counts.new ≡ step (J job.now) (L job.now) (state_of z self counts.old) }
        ensures by_index_2 { (z : ℕ) → counts.new ≡ counts_after (step (J job.now) (L job.now) (state_of z self counts.old)) counts.old }
        ensures by_index_3 { (j : ℕ) → boards_of (L job.now) j counts.old ≡ step_spends j result + boards_of (L job.now) j counts.new }
    {
        let waiting = self.waiting;
        let Some((stage, p)) = next_of(waiting.first, waiting.second, waiting.third) else {
            return Step::Idle;
        };
        let rest = State {
            waiting: waiting.without(stage),
            ..self
        };
        let Some(c) = find_cut(counts, begins, p.plate) else {
            return Step::LeftOver(p, rest);
        };
        rest.cut(job, blade, plates, cuts, c, counts, stage, p)
    }
}
