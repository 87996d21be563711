// Refusal 16: a strip breaks the stage rule of the mode.
ghost use Rattle.std.specs.Prelude.{◌≡◌, ◌&&◌, ◌||◌, ◌+◌, ◌<◌, ◌^◌, eqb, drop};
ghost use Rattle.job.specs.Refused.{row_verdict};
ghost use Rattle.job.specs.Job.{job_of};
ghost use Rattle.layouts.specs.Layout.{strip_height, stage_rule};
ghost use Rattle.layouts.specs.Lines.{rows_of, grouped};
ghost use Rattle.layouts.specs.LayoutsRow.{laid_set, lowest_strip, breaks_stage};
ghost use Rattle.layouts_strips.specs.First.{strip_of};
ghost use Rattle.layouts_strips.specs.Staged.{stack_kept, full_enough};

use crate::lines::Lines;
use crate::stack::StackMeasure;
use job::head::head_of;
use job::mode::Mode;
use job::refused::{Refusal, Refused};

// Whether a stack, of one item or not, keeps its part of the stage rule in a strip of a height.
#[tactic(auto, unfolding(crate::specs::Staged::stack_kept))]
fn stack_kept(mode: Mode, stack: StackMeasure, alone: bool, height: u32) -> bool
    ensures { result ≡ stack_kept mode alone stack.even (eqb stack.height height) }
{
    if mode.three() {
        return !mode.exact() || stack.even;
    }
    alone && (!mode.exact() || stack.height == height)
}

// Whether some stack so far, or this one, is a single item of the strip's height.
fn some_full(full: bool, stack: StackMeasure, alone: bool, height: u32) -> bool
    ensures { result ≡ (full || (alone && eqb stack.height height)) }
{
    full || alone && stack.height == height
}

// Whether a strip has the full stack that its mode asks for.
#[tactic(auto, unfolding(crate::specs::Staged::full_enough))]
fn full_enough(mode: Mode, full: bool) -> bool
    ensures { result ≡ full_enough mode full }
{
    !mode.three() || full
}

impl Lines<'_> {
    // Whether the strip whose first line stands behind a others, which is so high, keeps the stage rule.
    fn strip_staged(&self, mode: Mode, a: usize, height: u32) -> bool
        requires inside { a < self.now.number }
        requires mode_value { (mode ≡ (job_of self.now.job.now).mode) × (height ≡ strip_height (job_of self.now.job.now) (strip_of (drop a (rows_of self.now.layouts.now)))) }
        ensures { result ≡ stage_rule (job_of self.now.job.now) (strip_of (drop a (rows_of self.now.layouts.now))) }
    {
        let mut c = a;
        let mut full = false;
        loop {
            let stack = self.stack_at(c);
            let alone = stack.end == c + 1;
            if !stack_kept(mode, stack, alone, height) {
                return false;
            }
            full = some_full(full, stack, alone, height);
            c = stack.end;
            if !self.begins_stack(c) {
                return full_enough(mode, full);
            }
        }
    }

    // 16 for the lowest strip that breaks the stage rule of the mode, naming its first line; lines are numbered from k.
    pub fn stage_row(&self, k: usize) -> Result<(), Refused>
        requires { k + self.now.number < 2 ^ 64 }
        ensures { row_verdict result ≡ lowest_strip 16 (breaks_stage (job_of self.now.job.now)) (laid_set (job_of self.now.job.now) k (grouped (rows_of self.now.layouts.now))) }
    {
        let head = head_of(self.job);
        let mut a: usize = 0;
        while a < self.number {
            let strip = self.strip_at(a);
            if !self.strip_staged(head.mode, a, strip.height) {
                return Err(Refusal::Stages.at(k + a));
            }
            a = strip.end;
        }
        Ok(())
    }
}
