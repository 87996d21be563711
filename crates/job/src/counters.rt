// The counters of the model; none is used where another is meant.
ghost use Rattle.std.specs.Prelude.{◌≡◌, ◌-◌, ◌≤◌};

// The number of an item type, from 1. A job's last item type tells how many it has.
#[derive(Clone, Copy, Debug, PartialEq, Eq, PartialOrd, Ord)]
pub struct ItemType(pub u16);

// The number of an item type in a position: twice the type plus the turn, which is 0, or 1 for an item that is turned.
#[derive(Clone, Copy, Debug, PartialEq, Eq, PartialOrd, Ord)]
pub struct ItemPosition(pub u16);

// The number of a plate type; the board sizes are the first, from 0, and residual types follow.
#[derive(Clone, Copy, Debug, PartialEq, Eq, PartialOrd, Ord)]
pub struct PlateType(pub u16);

// The number of a cut, from 1. A listing's last cut tells how many it has.
#[derive(Clone, Copy, Debug, PartialEq, Eq, PartialOrd, Ord)]
pub struct CutNumber(pub u16);

// How many board sizes a job has, which is also the number of the first residual type.
#[derive(Clone, Copy, Debug, PartialEq, Eq, PartialOrd, Ord)]
pub struct BoardSizes(pub u16);

// How many plate types a listing has, the sizes among them: one more than the number of its last plate type.
#[derive(Clone, Copy, Debug, PartialEq, Eq, PartialOrd, Ord)]
pub struct PlateTypes(pub u16);

impl PlateTypes {
    // How many of them are residual types: all but the sizes.
    pub fn residuals(self, sizes: BoardSizes) -> u16
        requires { sizes.0 ≤ self.0 }
        ensures { result ≡ self.0 - sizes.0 }
    {
        self.0 - sizes.0
    }
}
