// The numbers of a line of a saw text, by what comes next.
ghost use Rattle.std.specs.Prelude.{◌≡◌, true, ℕ, suc, ◌<◌, eqb, get_or};
ghost use Rattle.texts.specs.JobLines.{body, board_sizes};
ghost use Rattle.texts.specs.SawText.{Saw};
ghost use Rattle.texts_reading.specs.Standing.{place_of};
ghost use Rattle.saw_text_lines.specs.SawKept.{lent, Room, HeldAs, plate_sound, place_sound, TakenAs};

use crate::held::{
    SawHeld, Taken, take_first, take_item, take_item_price, take_plan, take_plate_price,
    take_prices, take_size,
};
use job::admit::within;
use job::counters::{BoardSizes, ItemType, PlateType};
use job::head::head_of;
use job::refused::Refusal;
use job::sizes::{HEAD_WORDS, ITEM_WORDS, MAX_RESIDUALS, MAX_SIZES, MAX_TYPES, SIZE_WORDS};
use texts_reading::text::Place;

// Whether the numbers are those of a line of kind 4.
fn begins_prices(numbers: &[u32]) -> bool
    ensures { result ≡ eqb (get_or numbers.now 0 0) 4 }
{
    numbers.len() != 0 && numbers[0] == 4
}

// A line of the body: a line 4, or else a line 3, judged by the words of its job. The words that are kept of a text have at most 6 sizes and 40 types;
// others, which no text has, are refused.
fn take_body(
    held: SawHeld,
    line: u32,
    numbers: &[u32],
    job: &[u16],
    plates: &[u16],
    cuts: &[u16],
    counts: &mut [u16],
    prices: &mut [u16],
) -> Result<Taken, Refusal>
    requires { (0 < line) × Room (lent job.now plates.now cuts.now counts.old prices.old) }
    ensures { (s : Saw) (lines : ℕ) → s.place ≡ body → suc lines ≡ line → HeldAs s lines held (lent job.now plates.now cuts.now counts.old prices.old) → TakenAs s lines numbers.now held result (lent job.now plates.now cuts.now counts.new prices.new) }
{
    if begins_prices(numbers) {
        return take_prices(held, numbers, prices);
    }
    let head = head_of(job);
    let n = head.types;
    let t = head.sizes;
    if MAX_TYPES < n.0 || MAX_SIZES < t.0 {
        return Err(Refusal::Limits);
    }
    let words = HEAD_WORDS + SIZE_WORDS * (t.0 as usize) + ITEM_WORDS * (n.0 as usize);
    take_plan(held, line, numbers, &job[..words], plates, cuts, counts)
}

// Whether the number of a plate type is that of a residual type, of t sizes, where line 4's n is `types`.
#[tactic(auto, unfolding(crate::specs::SawKept::plate_sound))]
fn plate_sound(t: BoardSizes, types: ItemType, j: PlateType) -> bool
    ensures { result ≡ plate_sound t.0 types.0 j.0 }
{
    t.0 <= MAX_SIZES && t.0 <= j.0 && j.0 - t.0 < MAX_RESIDUALS && types.0 <= MAX_TYPES
}

// Whether the running number of what comes next is within its limits, where the job has t sizes and line 4's n is `types`.
pub fn sound(place: Place, t: BoardSizes, types: ItemType) -> bool
    ensures { result ≡ place_sound place t.0 types.0 }
{
    match place {
        Place::First => true,
        Place::Sizes(j) => j.0 < MAX_SIZES,
        Place::Types(i) => within(1, MAX_TYPES, i.0) && t.0 <= MAX_SIZES,
        Place::Body => true,
        Place::ItemPrices(i) => i.0 <= MAX_TYPES,
        Place::PlatePrices(j) => plate_sound(t, types, j),
        Place::Done => true,
    }
}

// What the numbers of a line make of what is kept.
pub fn take_numbers(
    held: SawHeld,
    place: Place,
    line: u32,
    numbers: &[u32],
    job: &mut [u16],
    plates: &mut [u16],
    cuts: &mut [u16],
    counts: &mut [u16],
    prices: &mut [u16],
) -> Result<Taken, Refusal>
    requires room { Room (lent job.old plates.old cuts.old counts.old prices.old) }
    requires line_nonzero { (0 < line) × (place_sound place (board_sizes job.old) held.prices.types.0 ≡ true) }
    ensures { (s : Saw) (lines : ℕ) → place_of place ≡ s.place → suc lines ≡ line → HeldAs s lines held (lent job.old plates.old cuts.old counts.old prices.old) → TakenAs s lines numbers.now held result (lent job.new plates.new cuts.new counts.new prices.new) }
{
    match place {
        Place::First => take_first(held, numbers, job),
        Place::Sizes(j) => take_size(held, j, numbers, job),
        Place::Types(i) => take_item(held, i, numbers, job, plates, cuts),
        Place::Body => take_body(held, line, numbers, job, plates, cuts, counts, prices),
        Place::ItemPrices(i) => take_item_price(held, head_of(job).sizes, i, numbers, prices),
        Place::PlatePrices(j) => take_plate_price(held, head_of(job).sizes, j, numbers, prices),
        Place::Done => Err(Refusal::Form),
    }
}
