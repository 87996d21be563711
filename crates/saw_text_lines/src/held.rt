// What is kept of a saw text beside where it stands, and what each line makes of it.
ghost use Rattle.std.specs.Prelude.{◌≡◌, List, [], ◌∷◌, ◌++◌, ℕ, suc, ◌+◌, ◌-◌, ◌≤◌, ◌<◌, length, get_or};
ghost use Rattle.job.specs.Sizes.{max_sizes, max_types, max_residuals, words_of_head, words_before, job_size, plates_size, cuts_size, counts_size, prices_size};
ghost use Rattle.texts.specs.JobLines.{first, sizes, types, body, item_prices, plate_prices, board_sizes, types_of, body_line};
ghost use Rattle.texts.specs.SawText.{Counted, Saw, counted_in};
ghost use Rattle.saw_text_body.specs.PlanRead.{PlanNumbers, LineOf};
ghost use Rattle.saw_text_body.specs.ModelRead.{ModelKept};
ghost use Rattle.saw_text_lines.specs.SawKept.{lent, Room, PlanHeld, HeldAs, TakenAs};

use job::counters::{BoardSizes, ItemPosition, ItemType, PlateType};
use job::head::head_of;
use job::refused::Refusal;
use job::sizes::MAX_CUTS;
use saw_text_body::model::{Model, list_job};
use saw_text_body::plan_lines::{PlanLine, PlanLines, Shown};
use saw_text_body::price_lines::{PriceLines, after_item_price, after_plate_price};
use texts_reading::job_lines::{read_first, read_item, read_size};
use texts_reading::kinds::{item_price_line, plan_line, plate_price_line, prices_line};
use texts_reading::text::Place;

// What the listing call says of the job, 1 before its lines are complete; the lines 3; the lines 4, 5 and 6.
#[derive(Clone, Copy, Debug, PartialEq, Eq)]
pub struct SawHeld {
    pub model: Model,
    pub plan: PlanLines,
    pub prices: PriceLines,
}

// What an admitted line makes of a text: what comes next, and what is then kept.
#[derive(Clone, Copy, Debug, PartialEq, Eq)]
pub struct Taken {
    pub place: Place,
    pub held: SawHeld,
}

// Line 1: its numbers are the job's first words.
pub fn take_first(held: SawHeld, numbers: &[u32], job: &mut [u16]) -> Result<Taken, Refusal>
    requires { words_of_head ≤ length job.old }
    ensures { (s : Saw) (lines : ℕ) (plates cuts counts prices : List ℕ) → s.place ≡ first → HeldAs s lines held (lent job.old plates cuts counts prices) → TakenAs s lines numbers.now held result (lent job.new plates cuts counts prices) }
{
    read_first(numbers, job)?;
    let place = Place::Sizes(PlateType(0));
    Ok(Taken { place, held })
}

// Line 10 of size j: its numbers are the next of the job's words.
pub fn take_size(
    held: SawHeld,
    j: PlateType,
    numbers: &[u32],
    job: &mut [u16],
) -> Result<Taken, Refusal>
    requires { (j.0 < max_sizes) × (words_before (j.0 + 1) ≤ length job.old) }
    ensures { (s : Saw) (lines : ℕ) (plates cuts counts prices : List ℕ) → s.place ≡ sizes j.0 → HeldAs s lines held (lent job.old plates cuts counts prices) → TakenAs s lines numbers.now held result (lent job.new plates cuts counts prices) }
{
    read_size(numbers, j, job)?;
    let head = head_of(job);
    if head.sizes.0 != j.0 + 1 {
        let place = Place::Sizes(PlateType(j.0 + 1));
        return Ok(Taken { place, held });
    }
    let place = Place::Types(ItemType(1));
    Ok(Taken { place, held })
}

// Line 2 of type i: its numbers are the next of the job's words; after the last type the job is listed.
pub fn take_item(
    held: SawHeld,
    i: ItemType,
    numbers: &[u32],
    job: &mut [u16],
    plates: &mut [u16],
    cuts: &mut [u16],
) -> Result<Taken, Refusal>
    requires { (1 ≤ i.0) × ((i.0 ≤ max_types) × (job_size (board_sizes job.old) i.0 ≤ length job.old)) }
    ensures { (s : Saw) (lines : ℕ) (counts prices : List ℕ) → s.place ≡ types i.0 → Room (lent job.old plates.old cuts.old counts prices) → HeldAs s lines held (lent job.old plates.old cuts.old counts prices) → TakenAs s lines numbers.now held result (lent job.new plates.new cuts.new counts prices) }
{
    let head = head_of(job);
    read_item(numbers, i, job)?;
    if i.0 != head.types.0 {
        let place = Place::Types(ItemType(i.0 + 1));
        return Ok(Taken { place, held });
    }
    let model = list_job(job, head.sizes, head.types, plates, cuts);
    Ok(Taken {
        place: Place::Body,
        held: SawHeld { model, ..held },
    })
}

// A line 3, by the model: passed over where the job is refused.
fn count_line(
    model: Model,
    plan: PlanLines,
    line: u32,
    here: PlanLine,
    plates: &[u16],
    cuts: &[u16],
    counts: &mut [u16],
) -> PlanLines
    requires line_nonzero { (0 < line) × ((plates_size ≤ length plates.now) × ((cuts_size ≤ length cuts.now) × (counts_size ≤ length counts.old))) }
    requires plate_le_max_residuals { here.plate.0 ≤ max_residuals }
    ensures { (ws : List ℕ) (rs : List Counted) (r : Counted) → ModelKept ws model plates.now cuts.now → body_line ws + length rs ≡ line → LineOf here r → PlanHeld ws model rs plan counts.old → PlanHeld ws model (rs ++ r ∷ []) result counts.new }
{
    match model {
        Model::Refused(_, _) => plan,
        Model::Listed(_, k) => {
            if MAX_CUTS < k.0 {
                return plan;
            }
            plan.more(line, here, plates, cuts, k, counts)
        }
    }
}

// The numbers of a line 3: its position is twice the type plus the turn, its last number; the plate is shown after the count.
pub fn plan_numbers(numbers: &[u32]) -> PlanLine
    requires { PlanNumbers max_types numbers.now }
    ensures { LineOf result (counted_in numbers.now) }
{
    PlanLine {
        plate: PlateType(numbers[1] as u16),
        item: ItemPosition((2 * numbers[2] + numbers[7]) as u16),
        count: numbers[3] as u16,
        shown: Shown {
            width: numbers[4],
            height: numbers[5],
            stage: numbers[6],
        },
    }
}

// A line of the body that is not of kind 4: a line 3, of the job of these words.
pub fn take_plan(
    held: SawHeld,
    line: u32,
    numbers: &[u32],
    job: &[u16],
    plates: &[u16],
    cuts: &[u16],
    counts: &mut [u16],
) -> Result<Taken, Refusal>
    requires line_nonzero { (0 < line) × ((plates_size ≤ length plates.now) × ((cuts_size ≤ length cuts.now) × (counts_size ≤ length counts.old))) }
    requires words_of_head_in_bounds { (words_of_head ≤ length job.now) × (types_of job.now ≤ max_types) }
    ensures { (s : Saw) (lines : ℕ) (buffer prices : List ℕ) → s.place ≡ body → (get_or numbers.now 0 0 ≡ 4 → ⊥) → suc lines ≡ line → job.now ≡ s.job → HeldAs s lines held (lent buffer plates.now cuts.now counts.old prices) → TakenAs s lines numbers.now held result (lent buffer plates.now cuts.now counts.new prices) }
{
    plan_line(numbers, job)?;
    let here = plan_numbers(numbers);
    let plan = count_line(held.model, held.plan, line, here, plates, cuts, counts);
    Ok(Taken {
        place: Place::Body,
        held: SawHeld { plan, ..held },
    })
}

// Line 4: D is the first price word.
pub fn take_prices(held: SawHeld, numbers: &[u32], prices: &mut [u16]) -> Result<Taken, Refusal>
    requires { prices_size ≤ length prices.old }
    ensures { (s : Saw) (lines : ℕ) (job plates cuts counts : List ℕ) → s.place ≡ body → get_or numbers.now 0 0 ≡ 4 → HeldAs s lines held (lent job plates cuts counts prices.old) → TakenAs s lines numbers.now held result (lent job plates cuts counts prices.new) }
{
    prices_line(numbers)?;
    prices[0] = numbers[1] as u16;
    let begun = PriceLines {
        given: true,
        types: ItemType(numbers[2] as u16),
        residuals: numbers[3] as u16,
    };
    Ok(Taken {
        place: Place::ItemPrices(ItemType(1)),
        held: SawHeld {
            prices: begun,
            ..held
        },
    })
}

// Line 5 of type i, of a job of t sizes: its price is the next price word.
pub fn take_item_price(
    held: SawHeld,
    t: BoardSizes,
    i: ItemType,
    numbers: &[u32],
    prices: &mut [u16],
) -> Result<Taken, Refusal>
    requires { (i.0 ≤ max_types) × (i.0 < length prices.old) }
    ensures { (s : Saw) (lines : ℕ) (job plates cuts counts : List ℕ) → s.place ≡ item_prices i.0 → board_sizes s.job ≡ t.0 → HeldAs s lines held (lent job plates cuts counts prices.old) → TakenAs s lines numbers.now held result (lent job plates cuts counts prices.new) }
{
    item_price_line(numbers, i)?;
    prices[i.0 as usize] = numbers[2] as u16;
    let lines = held.prices;
    let place = after_item_price(t, lines.types, lines.residuals, i);
    Ok(Taken { place, held })
}

// Line 6 of plate type j, of a job of t sizes: its price is the next price word.
pub fn take_plate_price(
    held: SawHeld,
    t: BoardSizes,
    j: PlateType,
    numbers: &[u32],
    prices: &mut [u16],
) -> Result<Taken, Refusal>
    requires { (t.0 ≤ j.0) × ((j.0 < max_sizes + max_residuals) × (held.prices.types.0 + 1 + (j.0 - t.0) < length prices.old)) }
    ensures { (s : Saw) (lines : ℕ) (job plates cuts counts : List ℕ) → s.place ≡ plate_prices j.0 → board_sizes s.job ≡ t.0 → HeldAs s lines held (lent job plates cuts counts prices.old) → TakenAs s lines numbers.now held result (lent job plates cuts counts prices.new) }
{
    plate_price_line(numbers, j)?;
    let lines = held.prices;
    let at = lines.types.0 as usize + 1 + (j.0 - t.0) as usize;
    prices[at] = numbers[2] as u16;
    let place = after_plate_price(t, lines.residuals, j);
    Ok(Taken { place, held })
}
