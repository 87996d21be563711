// Admission: the line row of a job's words, 1 and 2, and the job row, 3 and 4.
ghost use Rattle.std.specs.Prelude.{◌≡◌, not, ◌≤◌, length};
ghost use Rattle.job.specs.Lists.{all};
ghost use Rattle.job.specs.Sizes.{words_of_head, words_before, job_size, max_types};
ghost use Rattle.job.specs.Verdict.{pass, ◌then◌, lowest, within};
ghost use Rattle.job.specs.Job.{board_sizes, job_of, head_right, size_right, item_right, job_words, fits_in, fits, larger, demanded, admission};
ghost use Rattle.job.specs.Refused.{row_verdict};

use crate::counters::{ItemType, PlateType};
use crate::head::head_of;
use crate::item::{Item, Position};
use crate::position::{turned, unturned};
use crate::refused::{Refusal, Refused};
use crate::size::Size;
use crate::sizes::{
    BLADE, EXACT, HEAD_WORDS, ITEM_WORDS, MAX_BLADE, MAX_COST, MAX_PIECES, MAX_SIDE, MAX_SIZES,
    MAX_TYPES, SIZE_WORDS, SIZES, STAGES, TYPES,
};
use crate::words::{item_at, size_at};

// Whether a value is within its limits.
pub fn within(low: u16, high: u16, x: u16) -> bool
    ensures { result ≡ within low high x }
{
    low <= x && x <= high
}

// Whether the words of the head are within their limits.
fn head_right(job: &[u16]) -> bool
    requires { words_of_head ≤ length job.now }
    ensures { result ≡ head_right job.now }
{
    within(2, 3, job[STAGES])
        && within(0, 1, job[EXACT])
        && within(1, MAX_SIZES, job[SIZES])
        && within(1, MAX_TYPES, job[TYPES])
        && within(0, MAX_BLADE, job[BLADE])
}

// Whether the words of a size are within their limits.
fn size_right(size: Size) -> bool
    ensures { result ≡ size_right size }
{
    within(1, MAX_SIDE, size.width)
        && within(1, MAX_SIDE, size.height)
        && within(1, MAX_COST, size.cost)
}

// Whether the words of every size are within their limits.
fn sizes_right(job: &[u16]) -> bool
    requires { words_before (board_sizes job.now) ≤ length job.now }
    ensures { result ≡ all size_right (job_of job.now).sizes }
{
    for j in 0..job[SIZES] {
        let size = size_at(job, PlateType(j));
        if !size_right(size) {
            return false;
        }
    }
    true
}

// Whether the words of an item type are within their limits.
fn item_right(item: Item) -> bool
    ensures { result ≡ item_right item }
{
    within(1, MAX_SIDE, item.width)
        && within(1, MAX_SIDE, item.height)
        && within(1, MAX_PIECES, item.demand)
        && within(0, 1, item.leave)
}

// 2 for the lowest of n item types with a word outside its limits.
fn types_right(job: &[u16], n: ItemType) -> Result<(), Refused>
    requires { (length job.now ≡ job_size (board_sizes job.now) n.0) × (n.0 ≤ max_types) }
    ensures { row_verdict result ≡ lowest 2 (λ _ it. not (item_right it)) 1 (job_of job.now).items }
{
    for i in 1..n.0 + 1 {
        let item = item_at(job, ItemType(i));
        if !item_right(item) {
            return Err(Refusal::Limits.at(i as usize));
        }
    }
    Ok(())
}

// The line row of a job's words: 1 for another length than its numbers of sizes and of types ask for, 2 for a value outside its limits.
pub fn job_words(job: &[u16]) -> Result<(), Refused>
    ensures { row_verdict result ≡ job_words job.now }
{
    if job.len() < HEAD_WORDS {
        return Err(Refusal::Form.at(0));
    }
    let t = job[SIZES];
    let n = job[TYPES];
    let words = HEAD_WORDS + SIZE_WORDS * (t as usize) + ITEM_WORDS * (n as usize);
    if job.len() != words {
        return Err(Refusal::Form.at(0));
    }
    if !head_right(job) {
        return Err(Refusal::Limits.at(0));
    }
    if !sizes_right(job) {
        return Err(Refusal::Limits.at(0));
    }
    types_right(job, ItemType(n))
}

// Whether a position is permitted and not wider or taller than a board of this size.
#[tactic(auto, unfolding(crate::specs::Job::fits_in))]
fn fits_in(position: Position, size: Size) -> bool
    ensures { result ≡ fits_in position size }
{
    position.allowed && position.width <= size.width && position.height <= size.height
}

// Whether a position is permitted and not wider or taller than a board of some size.
fn fits(job: &[u16], position: Position) -> bool
    requires { words_before (board_sizes job.now) ≤ length job.now }
    ensures { result ≡ fits (job_of job.now) position }
{
    for j in 0..job[SIZES] {
        let size = size_at(job, PlateType(j));
        if fits_in(position, size) {
            return true;
        }
    }
    false
}

// Whether no permitted position of an item type fits a board of any size.
#[tactic(auto, unfolding(crate::specs::Job::larger))]
fn larger(job: &[u16], item: Item) -> bool
    requires { words_before (board_sizes job.now) ≤ length job.now }
    ensures { result ≡ larger (job_of job.now) item }
{
    !fits(job, unturned(item)) && !fits(job, turned(item))
}

// 3 for the lowest of n item types of which no permitted position fits any size.
fn types_fit(job: &[u16], n: ItemType) -> Result<(), Refused>
    requires { (length job.now ≡ job_size (board_sizes job.now) n.0) × (n.0 ≤ max_types) }
    ensures { row_verdict result ≡ lowest 3 (λ _ it. larger (job_of job.now) it) 1 (job_of job.now).items }
{
    for i in 1..n.0 + 1 {
        let item = item_at(job, ItemType(i));
        if larger(job, item) {
            return Err(Refusal::ItemLarger.at(i as usize));
        }
    }
    Ok(())
}

// The demands of n item types, added up.
fn demanded(job: &[u16], n: ItemType) -> u32
    requires { (length job.now ≡ job_size (board_sizes job.now) n.0) × (n.0 ≤ max_types) }
    ensures { result ≡ demanded (job_of job.now) }
{
    let mut sum = 0;
    for i in 1..n.0 + 1 {
        let item = item_at(job, ItemType(i));
        sum += item.demand as u32;
    }
    sum
}

// The job row, once the job's words have passed: 3 for an item of which no permitted position fits any size, 4 for demands above 4,000.
#[tactic(auto, unfolding(crate::specs::Job::admission))]
pub fn admit(job: &[u16]) -> Result<(), Refused>
    requires { job_words job.now ≡ pass }
    ensures { row_verdict result ≡ admission (job_of job.now) }
{
    let head = head_of(job);
    let n = head.types;
    types_fit(job, n)?;
    if (MAX_PIECES as u32) < demanded(job, n) {
        return Err(Refusal::Demands.at(0));
    }
    Ok(())
}

// The words of a job and then the job itself: refusals 1 to 4 in their order.
pub fn check_job(job: &[u16]) -> Result<(), Refused>
    ensures { row_verdict result ≡ (job_words job.now then admission (job_of job.now)) }
{
    job_words(job)?;
    admit(job)
}
