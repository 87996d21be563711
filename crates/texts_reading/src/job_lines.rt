// The lines of kinds 1, 10 and 2, with which both texts begin, as words of the job.
ghost use Rattle.std.specs.Prelude.{◌+◌, ◌≤◌, length};
ghost use Rattle.job.specs.Sizes.{words_of_head, words_before, job_size};
ghost use Rattle.texts.specs.JobLines.{board_sizes};
ghost use Rattle.texts_reading.specs.Judged.{number_said};
ghost use Rattle.texts_reading.specs.JobRead.{FirstRead, SizeRead, ItemRead};

use crate::kinds::{item_line, job_line, size_line};
use crate::words::put_words;
use job::counters::{ItemType, PlateType};
use job::refused::Refusal;
use job::sizes::{HEAD_WORDS, ITEM_WORDS, SIZE_WORDS, SIZES};

// Line 1: its refusal, or its numbers after the kind as the job's first words.
pub fn read_first(numbers: &[u32], job: &mut [u16]) -> Result<(), Refusal>
    requires { words_of_head ≤ length job.old }
    ensures { FirstRead numbers.now job.old job.new (number_said result) }
{
    job_line(numbers)?;
    put_words(job, 0, &numbers[1..]);
    Ok(())
}

// Line 10 of size j: its refusal, or its numbers after the size as the job's words of the size.
pub fn read_size(numbers: &[u32], j: PlateType, job: &mut [u16]) -> Result<(), Refusal>
    requires { words_before (j.0 + 1) ≤ length job.old }
    ensures { SizeRead j.0 numbers.now job.old job.new (number_said result) }
{
    size_line(numbers, j)?;
    put_words(job, HEAD_WORDS + SIZE_WORDS * (j.0 as usize), &numbers[2..]);
    Ok(())
}

// Line 2 of type i: its refusal, or its numbers after the type as the job's words of the type.
pub fn read_item(numbers: &[u32], i: ItemType, job: &mut [u16]) -> Result<(), Refusal>
    requires { (1 ≤ i.0) × (job_size (board_sizes job.old) i.0 ≤ length job.old) }
    ensures { ItemRead i.0 numbers.now job.old job.new (number_said result) }
{
    item_line(numbers, i)?;
    let sizes = job[SIZES];
    put_words(
        job,
        HEAD_WORDS + SIZE_WORDS * (sizes as usize) + ITEM_WORDS * (i.0 as usize - 1),
        &numbers[2..],
    );
    Ok(())
}
