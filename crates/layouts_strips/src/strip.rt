// A strip of layout lines, and its measures.
ghost use Rattle.std.specs.Prelude.{◌≡◌, ◌*◌, ◌≤◌, ◌<◌, drop};
ghost use Rattle.job.specs.Sizes.{max_pieces};
ghost use Rattle.job.specs.Job.{job_of};
ghost use Rattle.layouts.specs.Lines.{rows_of};
ghost use Rattle.layouts_strips.specs.First.{strip_of};
ghost use Rattle.layouts_strips.specs.Measures.{max_word, max_step, StripIs, StripSmall, stack_in};

use crate::lines::Lines;
use crate::stack::StackMeasure;
use job::head::head_of;

// A strip: the line behind its last, the widths of its stacks with a blade's width after each, and its height.
#[derive(Clone, Copy, Debug, PartialEq, Eq)]
pub struct StripMeasure {
    pub end: usize,
    pub across: u32,
    pub height: u32,
}

// A strip with one stack more in it.
fn with_stack(m: StripMeasure, stack: StackMeasure, blade: u16) -> StripMeasure
    requires { (m.across ≤ max_step * max_pieces) × (stack.width ≤ max_word) }
    ensures { result ≡ stack_in blade m stack }
{
    StripMeasure {
        end: stack.end,
        across: m.across + stack.width + blade as u32,
        height: m.height.max(stack.height),
    }
}

impl Lines<'_> {
    // The measures of the strip whose first line stands behind a others.
    pub fn strip_at(&self, a: usize) -> StripMeasure
        requires { a < self.now.number }
        ensures { (StripIs (job_of self.now.job.now) a (strip_of (drop a (rows_of self.now.layouts.now))) result) × ((StripSmall a self.now.number result) × (a < result.end)) }
    {
        let head = head_of(self.job);
        let mut m = StripMeasure {
            end: a,
            across: 0,
            height: 0,
        };
        loop {
            let stack = self.stack_at(m.end);
            m = with_stack(m, stack, head.blade);
            if !self.begins_stack(m.end) {
                return m;
            }
        }
    }
}
