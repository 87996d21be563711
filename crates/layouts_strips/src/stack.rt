// A stack of layout lines, and its measures.
ghost use Rattle.std.specs.Prelude.{◌≡◌, ◌*◌, ◌≤◌, ◌<◌, drop};
ghost use Rattle.job.specs.Sizes.{max_pieces};
ghost use Rattle.job.specs.Job.{job_of, position_at};
ghost use Rattle.layouts.specs.Lines.{rows_of};
ghost use Rattle.placement.specs.PlacementRead.{placement_at};
ghost use Rattle.layouts_strips.specs.First.{stack_of};
ghost use Rattle.layouts_strips.specs.Measures.{max_step, StackIs, StackSmall, item_on};

use crate::begins::goes_on;
use crate::lines::Lines;
use job::head::head_of;
use job::item::Position;
use job::position::position_at;
use placement::placement_at;

// A stack: the line behind its last, its width and its height, and whether all its items are equally wide.
#[derive(Clone, Copy, Debug, PartialEq, Eq)]
pub struct StackMeasure {
    pub end: usize,
    pub width: u32,
    pub height: u32,
    pub even: bool,
}

// A stack with one item more on it, a blade's width above the item below.
fn with_item(m: StackMeasure, item: Position, blade: u16) -> StackMeasure
    requires { (m.end ≤ max_pieces) × (m.height ≤ max_step * max_pieces) }
    ensures { result ≡ item_on blade m item }
{
    let width = item.width as u32;
    StackMeasure {
        end: m.end + 1,
        width: m.width.max(width),
        height: m.height + blade as u32 + item.height as u32,
        even: m.even && width == m.width,
    }
}

impl Lines<'_> {
    // The item of the line behind c others, as it lies.
    pub fn item_of(&self, c: usize) -> Position
        requires { c < self.now.number }
        ensures { result ≡ position_at (job_of self.now.job.now) (placement_at self.now.layouts.now c).item }
    {
        position_at(self.job, placement_at(self.layouts, c).position())
    }

    // The measures of the stack whose first line stands behind c others.
    pub fn stack_at(&self, c: usize) -> StackMeasure
        requires { c < self.now.number }
        ensures { (StackIs (job_of self.now.job.now) c (stack_of (drop c (rows_of self.now.layouts.now))) result) × (StackSmall c self.now.number result) }
    {
        let head = head_of(self.job);
        let first = self.item_of(c);
        let mut m = StackMeasure {
            end: c + 1,
            width: first.width as u32,
            height: first.height as u32,
            even: true,
        };
        while goes_on(self.layouts, self.number, m.end) {
            let item = self.item_of(m.end);
            m = with_item(m, item, head.blade);
        }
        m
    }
}
