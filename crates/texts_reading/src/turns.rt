// The line row of a line that ends with the turn: 1, 2, and then 19 for an item that may not be turned.
ghost use Rattle.std.specs.Prelude.{◌≡◌, not, [], ◌∷◌, ℕ, ◌+◌, ◌*◌, ◌≤◌, ◌<◌, length, get_or};
ghost use Rattle.job.specs.Sizes.{words_of_head};
ghost use Rattle.job.specs.Verdict.{refuse_if};
ghost use Rattle.job.specs.Job.{permitted, job_of};
ghost use Rattle.texts.specs.Shape.{turning, numbers_row};
ghost use Rattle.texts_reading.specs.Judged.{limits_of, line_verdict, number_said};

use crate::judge::judge;
use job::counters::ItemType;
use job::position::turned;
use job::refused::Refusal;
use job::sizes::{HEAD_WORDS, ITEM_WORDS, SIZE_WORDS, SIZES};
use job::words::item_at;

// 19 unless the job permits item type i in this turn; a type that the job's words have not lies nowhere.
fn turn_row(job: &[u16], i: ItemType, turn: u32) -> Result<(), Refusal>
    requires { (turn ≤ 1) × (words_of_head ≤ length job.now) }
    ensures { (line : ℕ) → line_verdict (number_said result) line ≡ refuse_if (not (permitted (job_of job.now) (2 * i.0 + turn))) 19 line }
{
    if i.0 == 0 {
        return Err(Refusal::TurnedWithoutLeave);
    }
    let sizes = job[SIZES];
    if job.len() < HEAD_WORDS + SIZE_WORDS * (sizes as usize) + ITEM_WORDS * (i.0 as usize) {
        return Err(Refusal::TurnedWithoutLeave);
    }
    if turn == 0 {
        return Ok(());
    }
    let p = turned(item_at(job, i));
    if p.allowed {
        return Ok(());
    }
    Err(Refusal::TurnedWithoutLeave)
}

// Judges a line's numbers: after the kind the type stands at place i and the turn at place t, from 0, each with its limits.
pub fn judge_turn(
    numbers: &[u32],
    kind: u32,
    low: &[u32],
    high: &[u32],
    job: &[u16],
    i: usize,
    t: usize,
) -> Result<(), Refusal>
    requires high_len { (length high.now ≡ length low.now) × ((i < length low.now) × (t < length low.now)) }
    requires i_bound { (get_or high.now i 0 < 65536) × ((get_or high.now t 0 ≡ 1) × (words_of_head ≤ length job.now)) }
    ensures { (line : ℕ) → line_verdict (number_said result) line ≡ numbers_row line (turning kind (limits_of low.now high.now) job.now i t ∷ []) numbers.now }
{
    let head = [kind];
    judge(numbers, &head, low, high)?;
    turn_row(job, ItemType(numbers[i + 1] as u16), numbers[t + 1])
}
