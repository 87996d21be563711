// Lines 3, one after another: the first that names no cut, the first that shows another plate, the first whose cut is not after the last, and the counts.
ghost use Rattle.std.specs.Prelude.{◌≡◌, not, List, [], ◌∷◌, ◌++◌, ℕ, ◌+◌, ◌*◌, ◌≤◌, ◌<◌, length};
ghost use Rattle.job.specs.Sizes.{words_of_plate, words_of_cut, RecordIn};
ghost use Rattle.job.specs.Job.{Job};
ghost use Rattle.listing.specs.Plate.{same};
ghost use Rattle.listing.specs.Listing.{Listing};
ghost use Rattle.layouts.specs.Fold.{cut_of};
ghost use Rattle.listing.specs.Records.{plate_words};
ghost use Rattle.listing.specs.Holds.{Holds, plate_read};
ghost use Rattle.listing.specs.CutRead.{cuts_read};
ghost use Rattle.listing_find.specs.Rising.{Rising};
ghost use Rattle.texts.specs.SawText.{Counted, named_cut, misshown};
ghost use Rattle.saw_text_body.specs.PlanRead.{plate_shown, LineOf, first_line, PlanKept};

use job::counters::{CutNumber, ItemPosition, PlateType};
use listing::words::plate_at;
use listing_find::search::find_cut_near;

// The plate that a line 3 shows, each number as it stands there.
#[derive(Clone, Copy, Debug, PartialEq, Eq)]
pub struct Shown {
    pub width: u32,
    pub height: u32,
    pub stage: u32,
}

// A line 3: its plate type, the position of its item type and turn, its count, and the plate that it shows.
#[derive(Clone, Copy, Debug, PartialEq, Eq)]
pub struct PlanLine {
    pub plate: PlateType,
    pub item: ItemPosition,
    pub count: u16,
    pub shown: Shown,
}

// The lines 3 so far: the first line refused by 8, the first refused by 20, the first refused by 9, each 0 where there is none, and the last cut named
// before the one refused by 9. No options: they are a part of the state that a host hands back, with any numbers (`saw::feed`, clause state-same).
#[derive(Clone, Copy, Debug, PartialEq, Eq)]
pub struct PlanLines {
    pub unnamed: u32,
    pub misshown: u32,
    pub fallen: u32,
    pub last: CutNumber,
}

// Whether the plate that a line shows is not plate type j (request Five): the words of the plate type are widened, and no number of the line is narrowed.
// Of a number that the listing has not the words are zeros, and the line is refused by 8 before.
#[tactic(auto, unfolding(listing::specs::Plate::same))]
fn shows_other(plates: &[u16], j: PlateType, shown: Shown) -> bool
    requires { RecordIn words_of_plate j.0 plates.now }
    ensures { result ≡ not (same (plate_shown shown) (plate_read plates.now j.0)) }
{
    let p = plate_at(plates, j);
    shown.width != p.width as u32
        || shown.height != p.height as u32
        || shown.stage != p.stage as u32
}

// The first line that is refused: the one so far, if there is one, else this line, if it is.
#[tactic(auto, unfolding(crate::specs::PlanRead::first_line))]
fn first_line(known: u32, here: bool, line: u32) -> u32
    ensures { result ≡ first_line known here line }
{
    if known != 0 {
        return known;
    }
    if here {
        return line;
    }
    0
}

// The number of the cut of plate type j and position q, 0 where there is none: looked for behind the last cut named, since the cuts of a plan rise.
fn cut_named(
    cuts: &[u16],
    k: CutNumber,
    last: CutNumber,
    j: PlateType,
    q: ItemPosition,
) -> CutNumber
    requires { words_of_cut * k.0 ≤ length cuts.now }
    ensures result_value { (l : Listing) → l.cuts ≡ cuts_read k.0 cuts.now → Rising l.cuts → result.0 ≡ cut_of l j.0 q.0 }
    ensures result_le_k { result.0 ≤ k.0 }
{
    let Some(c) = find_cut_near(cuts, k, last, j, q) else {
        return CutNumber(0);
    };
    c
}

impl PlanLines {
    // No line yet.
    pub fn none() -> PlanLines
        ensures { (result.unnamed ≡ 0) × ((result.misshown ≡ 0) × ((result.fallen ≡ 0) × (result.last.0 ≡ 0))) }
    {
        PlanLines {
            unnamed: 0,
            misshown: 0,
            fallen: 0,
            last: CutNumber(0),
        }
    }

    // One line more, which names cut c, or none where it is 0, shows its plate or another, and counts the cut.
    fn named(
        self,
        line: u32,
        c: CutNumber,
        other: bool,
        count: u16,
        counts: &mut [u16],
    ) -> PlanLines
        requires { (0 < line) × (c.0 ≤ length counts.old) }
        ensures { (l : Listing) (first : ℕ) (rs : List Counted) (r : Counted) → first + length rs ≡ line → c.0 ≡ named_cut l r → c.0 ≤ length l.cuts → other ≡ misshown l r → r.count ≡ count → PlanKept l first rs self counts.old → PlanKept l first (rs ++ r ∷ []) result counts.new }
    {
        let marked = PlanLines {
            unnamed: first_line(self.unnamed, c.0 == 0, line),
            misshown: first_line(self.misshown, other, line),
            ..self
        };
        if self.fallen != 0 {
            return marked;
        }
        if c.0 <= self.last.0 {
            return PlanLines {
                fallen: line,
                ..marked
            };
        }
        counts[(c.0 - 1) as usize] = count;
        PlanLines { last: c, ..marked }
    }

    // One line more, by the plates and the k cuts of a listing.
    pub fn more(
        self,
        line: u32,
        here: PlanLine,
        plates: &[u16],
        cuts: &[u16],
        k: CutNumber,
        counts: &mut [u16],
    ) -> PlanLines
        requires line_nonzero { (0 < line) × ((words_of_cut * k.0 ≤ length cuts.now) × (k.0 ≤ length counts.old)) }
        requires record_in { RecordIn words_of_plate here.plate.0 plates.now }
        ensures { (job : Job) (l : Listing) (first : ℕ) (rs : List Counted) (r : Counted) → Holds plates.now (plate_words job l.plates) → l.cuts ≡ cuts_read k.0 cuts.now → Rising l.cuts → first + length rs ≡ line → LineOf here r → PlanKept l first rs self counts.old → PlanKept l first (rs ++ r ∷ []) result counts.new }
    {
        let c = cut_named(cuts, k, self.last, here.plate, here.item);
        let other = shows_other(plates, here.plate, here.shown);
        self.named(line, c, other, here.count, counts)
    }
}
