// What a check says where it refuses: a refusal of the table, and the place that it names.
ghost use Rattle.std.specs.Prelude.{◌≡◌, List, ℕ};
ghost use Rattle.job.specs.Verdict.{refuse};
ghost use Rattle.job.specs.Buffers.{ends};
ghost use Rattle.job.specs.Refused.{number_of};

use crate::lent::end_refused;

// The refusals of document 01's table, in the order of their numbers, from 1.
#[derive(Clone, Copy, Debug, PartialEq, Eq)]
pub enum Refusal {
    // 1: a line, or the words of a job, not of the form.
    Form,
    // 2: a value outside its limits.
    Limits,
    // 3: no permitted position of an item type fits any size.
    ItemLarger,
    // 4: demands above 4,000.
    Demands,
    // 5: a lent buffer shorter than its full size.
    BufferShort,
    // 6: more than 2,048 plate types.
    PlatesMany,
    // 7: more than 8,192 cuts.
    CutsMany,
    // 8: no such cut.
    NoSuchCut,
    // 9: a cut not after the last.
    CutOrder,
    // 10: a total above 4,000.
    Total,
    // 11: an item type short.
    ItemShort,
    // 12: a plate type overdrawn.
    Overdrawn,
    // 13: prices for another number of item types or residual types.
    PricesNumber,
    // 14: a cut over its limit.
    CutOverLimit,
    // 15: a layout line not the next in turn.
    Turn,
    // 16: a stage rule broken.
    Stages,
    // 17: past the board.
    PastBoard,
    // 18: x or y wrong.
    Position,
    // 19: turned without leave.
    TurnedWithoutLeave,
    // 20: another plate shown.
    OtherPlate,
}

impl Refusal {
    // Its number in the table.
    pub fn number(self) -> u16
        ensures { result ≡ number_of self }
    {
        self as u16 + 1
    }

    // This refusal, naming a place.
    pub fn at(self, place: usize) -> Refused
        ensures { result ≡ record { refusal = self; place = place } }
    {
        Refused {
            refusal: self,
            place,
        }
    }
}

// A refusal, and the place that it names; 0 where it names none.
#[derive(Clone, Copy, Debug, PartialEq, Eq)]
pub struct Refused {
    pub refusal: Refusal,
    pub place: usize,
}

impl Refused {
    // What it leaves in an output buffer: after 5 it is unchanged, after another refusal every word is 0.
    pub fn end(self, buffer: &mut [u16])
        ensures { (place : ℕ) (ws : List ℕ) → buffer.new ≡ ends (refuse (number_of self.refusal) place) buffer.old ws }
    {
        end_refused(self.refusal.number(), buffer);
    }
}
