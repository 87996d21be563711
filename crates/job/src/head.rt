// The head of a job: what its words say before its sizes and item types.
ghost use Rattle.std.specs.Prelude.{◌≤◌, length};
ghost use Rattle.job.specs.Sizes.{words_of_head};
ghost use Rattle.job.specs.Head.{HeadOf};

use crate::counters::{BoardSizes, ItemType};
use crate::mode::Mode;
use crate::sizes::{BLADE, EXACT, SIZES, STAGES, TYPES};

// The stage mode, the number of sizes, the width of the blade, and the last item type, whose number is that of the item types.
#[derive(Clone, Copy, Debug, PartialEq, Eq)]
pub struct Head {
    pub mode: Mode,
    pub sizes: BoardSizes,
    pub blade: u16,
    pub types: ItemType,
}

// The head of a job's words.
pub fn head_of(job: &[u16]) -> Head
    requires { words_of_head ≤ length job.now }
    ensures { HeadOf job.now result }
{
    Head {
        mode: Mode::from_line(job[STAGES], job[EXACT]),
        sizes: BoardSizes(job[SIZES]),
        blade: job[BLADE],
        types: ItemType(job[TYPES]),
    }
}
