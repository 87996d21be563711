// Where an item comes in turn.
ghost use Rattle.std.specs.Prelude.{◌≡◌, ℕ, suc};
ghost use Rattle.layouts.specs.Placement.{opened, turn};
ghost use Rattle.layouts.specs.Unfold.{next_turn};
ghost use Rattle.unfold_waiting.specs.Meaning.{turn_of};
ghost use Rattle.unfold_waiting.specs.Turns.{TurnTo, max_steps};

use job::sizes::MAX_PIECES;

// Steps that are enough for an unfolding, four for each counted cut.
pub const MAX_STEPS: u16 = 4 * MAX_PIECES;

// Board, strip, stack and place of the last item, each from 1. The size of the board stands beside it.
#[derive(Clone, Copy, Debug, PartialEq, Eq)]
pub struct Turn {
    pub board: u16,
    pub strip: u16,
    pub stack: u16,
    pub place: u16,
}

impl Turn {
    // Before the first board.
    pub fn none() -> Turn
        ensures { (z : ℕ) → turn_of z result ≡ turn (opened 0 z) 0 0 0 }
    {
        Turn {
            board: 0,
            strip: 0,
            stack: 0,
            place: 0,
        }
    }

    // The item of a cut at stage 1 begins a strip, at stage 2 a stack, at stage 3 it takes the next place.
    #[tactic(auto, unfolding(layouts::specs::Unfold::next_turn))]
    pub fn next(self, stage: u16) -> Turn
        requires { TurnTo max_steps (turn_of 0 self) }
        ensures { (z : ℕ) → turn_of z result ≡ next_turn stage (turn_of z self) }
    {
        match stage {
            1 => Turn {
                strip: self.strip + 1,
                stack: 1,
                place: 1,
                ..self
            },
            2 => Turn {
                stack: self.stack + 1,
                place: 1,
                ..self
            },
            _ => Turn {
                place: self.place + 1,
                ..self
            },
        }
    }

    // The next board, on which nothing is placed yet.
    pub fn next_board(self) -> Turn
        requires { TurnTo max_steps (turn_of 0 self) }
        ensures { (z : ℕ) → turn_of z result ≡ turn (opened (suc self.board) z) 0 0 0 }
    {
        Turn {
            board: self.board + 1,
            strip: 0,
            stack: 0,
            place: 0,
        }
    }
}
