// The kinds of lines: each judges a line's numbers.
ghost use Rattle.std.specs.Prelude.{◌≡◌, [], ◌∷◌, ℕ, ◌-◌, ◌≤◌, length};
ghost use Rattle.job.specs.Sizes.{words_of_head};
ghost use Rattle.texts.specs.Shape.{job_line, size_line, item_line, plan_line, prices_line, item_price_line, plate_price_line, layout_line, numbers_row};
ghost use Rattle.texts_reading.specs.Judged.{line_verdict, number_said};

use crate::judge::judge;
use crate::turns::judge_turn;
use job::counters::{ItemType, PlateType};
use job::refused::Refusal;
use job::sizes::{
    MAX_BLADE, MAX_COST, MAX_PIECES, MAX_PRICE, MAX_RESIDUALS, MAX_SIDE, MAX_SIZES, MAX_TYPES,
    SIZES, TYPES,
};

// The limits as numbers of a line: sides, the blade, board sizes and their costs, item types, pieces, prices, residual types; the greatest number that nine columns hold.
const SIDE_LIMIT: u32 = MAX_SIDE as u32;

const BLADE_LIMIT: u32 = MAX_BLADE as u32;

const SIZES_LIMIT: u32 = MAX_SIZES as u32;

const COST_LIMIT: u32 = MAX_COST as u32;

const TYPES_LIMIT: u32 = MAX_TYPES as u32;

const PIECES_LIMIT: u32 = MAX_PIECES as u32;

const PRICE_LIMIT: u32 = MAX_PRICE as u32;

const RESIDUALS_LIMIT: u32 = MAX_RESIDUALS as u32;

const COLUMNS_LIMIT: u32 = 999_999_999;

// Kind 1: stages, exact, t, n, b.
pub fn job_line(numbers: &[u32]) -> Result<(), Refusal>
    ensures { (line : ℕ) → line_verdict (number_said result) line ≡ numbers_row line (job_line ∷ []) numbers.now }
{
    let head = [1u32];
    let low = [2u32, 0, 1, 1, 0];
    let high = [3u32, 1, SIZES_LIMIT, TYPES_LIMIT, BLADE_LIMIT];
    judge(numbers, &head, &low, &high)
}

// Kind 10 of size j: W, H, cost.
pub fn size_line(numbers: &[u32], j: PlateType) -> Result<(), Refusal>
    ensures { (line : ℕ) → line_verdict (number_said result) line ≡ numbers_row line (size_line j.0 ∷ []) numbers.now }
{
    let head = [10, j.0 as u32];
    let low = [1u32, 1, 1];
    let high = [SIDE_LIMIT, SIDE_LIMIT, COST_LIMIT];
    judge(numbers, &head, &low, &high)
}

// Kind 2 of type i: width, height, demand, leave.
pub fn item_line(numbers: &[u32], i: ItemType) -> Result<(), Refusal>
    ensures { (line : ℕ) → line_verdict (number_said result) line ≡ numbers_row line (item_line i.0 ∷ []) numbers.now }
{
    let head = [2, i.0 as u32];
    let low = [1u32, 1, 1, 0];
    let high = [SIDE_LIMIT, SIDE_LIMIT, PIECES_LIMIT, 1];
    judge(numbers, &head, &low, &high)
}

// Kind 3 of a job's words: plate, item, count, the plate's width, height and stage, turn. The three that show the plate have no limits of their own.
pub fn plan_line(numbers: &[u32], job: &[u16]) -> Result<(), Refusal>
    requires { words_of_head ≤ length job.now }
    ensures { (line : ℕ) → line_verdict (number_said result) line ≡ numbers_row line (plan_line job.now ∷ []) numbers.now }
{
    let low = [0u32, 1, 1, 0, 0, 0, 0];
    let high = [
        RESIDUALS_LIMIT,
        job[TYPES] as u32,
        PIECES_LIMIT,
        COLUMNS_LIMIT,
        COLUMNS_LIMIT,
        COLUMNS_LIMIT,
        1,
    ];
    judge_turn(numbers, 3, &low, &high, job, 1, 6)
}

// Kind 4: D, n, m.
pub fn prices_line(numbers: &[u32]) -> Result<(), Refusal>
    ensures { (line : ℕ) → line_verdict (number_said result) line ≡ numbers_row line (prices_line ∷ []) numbers.now }
{
    let head = [4u32];
    let low = [1u32, 1, 0];
    let high = [PRICE_LIMIT, TYPES_LIMIT, RESIDUALS_LIMIT];
    judge(numbers, &head, &low, &high)
}

// Kind 5 of type i: price.
pub fn item_price_line(numbers: &[u32], i: ItemType) -> Result<(), Refusal>
    ensures { (line : ℕ) → line_verdict (number_said result) line ≡ numbers_row line (item_price_line i.0 ∷ []) numbers.now }
{
    let head = [5, i.0 as u32];
    let low = [0u32];
    let high = [PRICE_LIMIT];
    judge(numbers, &head, &low, &high)
}

// Kind 6 of plate type j: price.
pub fn plate_price_line(numbers: &[u32], j: PlateType) -> Result<(), Refusal>
    ensures { (line : ℕ) → line_verdict (number_said result) line ≡ numbers_row line (plate_price_line j.0 ∷ []) numbers.now }
{
    let head = [6, j.0 as u32];
    let low = [0u32];
    let high = [PRICE_LIMIT];
    judge(numbers, &head, &low, &high)
}

// The greatest number of a size, of t sizes numbered from 0.
fn last_size(t: u16) -> u32
    ensures { result ≡ t - 1 }
{
    if t == 0 {
        return 0;
    }
    t as u32 - 1
}

// Kind 7 of a job's words: board, size, strip, stack, place, type, x, y, turn.
pub fn layout_line(numbers: &[u32], job: &[u16]) -> Result<(), Refusal>
    requires { words_of_head ≤ length job.now }
    ensures { (line : ℕ) → line_verdict (number_said result) line ≡ numbers_row line (layout_line job.now ∷ []) numbers.now }
{
    let low = [1u32, 0, 1, 1, 1, 1, 0, 0, 0];
    let high = [
        PIECES_LIMIT,
        last_size(job[SIZES]),
        PIECES_LIMIT,
        PIECES_LIMIT,
        PIECES_LIMIT,
        job[TYPES] as u32,
        SIDE_LIMIT,
        SIDE_LIMIT,
        1,
    ];
    judge_turn(numbers, 7, &low, &high, job, 5, 8)
}
