// The pieces that wait.
ghost use Rattle.std.specs.Prelude.{◌≡◌};
ghost use Rattle.std.proofs.Math.Option.{none, some};
ghost use Rattle.job.specs.Sizes.{words_of_plate, RecordIn};
ghost use Rattle.job.specs.Job.{Job};
ghost use Rattle.listing.specs.Listing.{Listing};
ghost use Rattle.listing.specs.Records.{plate_words};
ghost use Rattle.listing.specs.Holds.{Holds};
ghost use Rattle.layouts.specs.Unfold.{waiting, nothing_waits, wait};
ghost use Rattle.unfold_pick.specs.Next.{absent};
ghost use Rattle.unfold_waiting.specs.Meaning.{waiting_of};
ghost use Rattle.unfold_waiting.specs.Without.{without};

use job::counters::PlateType;
use listing::words::plate_at;
use unfold_pick::Piece;

// At most three pieces, one of each stage.
#[derive(Clone, Copy, Debug, PartialEq, Eq)]
pub struct Waiting {
    pub first: Piece,
    pub second: Piece,
    pub third: Piece,
}

// A place in which no piece waits.
fn absent() -> Piece
    ensures { result ≡ absent }
{
    Piece {
        here: false,
        plate: PlateType(0),
        x: 0,
        y: 0,
    }
}

impl Waiting {
    // Nothing waits.
    pub fn nothing() -> Waiting
        ensures { waiting_of result ≡ nothing_waits }
    {
        Waiting {
            first: absent(),
            second: absent(),
            third: absent(),
        }
    }

    // A board waits, a piece of the plate type of its size.
    pub fn board(size: PlateType) -> Waiting
        ensures { waiting_of result ≡ waiting (some (record { plate = size.0; x = 0; y = 0 })) none none }
    {
        Waiting {
            first: Piece {
                here: true,
                plate: size,
                x: 0,
                y: 0,
            },
            second: absent(),
            third: absent(),
        }
    }

    // The pieces that wait on when that of a stage is taken.
    pub fn without(self, stage: u16) -> Waiting
        ensures { waiting_of result ≡ without stage (waiting_of self) }
    {
        let mut w = self;
        match stage {
            3 => w.third = absent(),
            2 => w.second = absent(),
            _ => w.first = absent(),
        }
        w
    }

    // A kept residual of type j waits at (x, y), in the place of its stage; the number 0, which no residual type has, is waste.
    pub fn wait(self, plates: &[u16], j: PlateType, x: u16, y: u16) -> Waiting
        requires { RecordIn words_of_plate j.0 plates.now }
        ensures { (job : Job) (l : Listing) → Holds plates.now (plate_words job l.plates) → waiting_of result ≡ wait l j.0 x y (waiting_of self) }
    {
        if j.0 == 0 {
            return self;
        }
        let stage = plate_at(plates, j).stage;
        let p = Piece {
            here: true,
            plate: j,
            x,
            y,
        };
        let mut w = self;
        match stage {
            1 => w.first = p,
            2 => w.second = p,
            _ => w.third = p,
        }
        w
    }
}
