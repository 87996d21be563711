// Refusal 17: a strip's stack widths, with the gaps between them, pass the width of its board's size, or its top edge passes the height.
ghost use Rattle.std.specs.Prelude.{◌≡◌, ◌+◌, ◌≤◌, ◌<◌, ◌^◌, ◌||◌, ltb, drop};
ghost use Rattle.job.specs.Refused.{row_verdict};
ghost use Rattle.job.specs.Job.{job_of};
ghost use Rattle.layouts.specs.Lines.{rows_of, begun, grouped};
ghost use Rattle.layouts.specs.LayoutsRow.{laid_set, lowest_strip, past_board};
ghost use Rattle.layouts_strips.specs.First.{below_next};
ghost use Rattle.layouts_strips.specs.Measures.{max_word};

use crate::begins::begins_strip;
use crate::lines::Lines;
use crate::strip::StripMeasure;
use job::head::head_of;
use job::refused::{Refusal, Refused};
use job::size::Size;
use job::words::size_at;

// Whether a strip with this top edge passes a board of a size. After its last stack a strip needs no gap, so with one after each stack it may be a blade's
// width wider.
fn passes(strip: StripMeasure, top: u32, size: Size, blade: u32) -> bool
    requires { blade ≤ max_word }
    ensures { result ≡ (ltb (size.width + blade) strip.across || ltb size.height top) }
{
    size.width as u32 + blade < strip.across || (size.height as u32) < top
}

impl Lines<'_> {
    // The height below the strip that begins at a line: that above the strip before it, or 0 on another board.
    fn next_below(&self, c: usize, above: u32) -> u32
        requires { c ≤ self.now.number }
        ensures { result ≡ below_next (begun (drop c (rows_of self.now.layouts.now))) above }
    {
        if begins_strip(self.layouts, self.number, c) {
            return above;
        }
        0
    }

    // 17 for the lowest strip that passes its board, naming its first line; lines are numbered from k. The next strip of a board lies a blade's width above
    // the top edge.
    pub fn past_row(&self, k: usize) -> Result<(), Refused>
        requires { k + self.now.number < 2 ^ 64 }
        ensures { row_verdict result ≡ lowest_strip 17 (past_board (job_of self.now.job.now)) (laid_set (job_of self.now.job.now) k (grouped (rows_of self.now.layouts.now))) }
    {
        let head = head_of(self.job);
        let blade = head.blade as u32;
        let mut a: usize = 0;
        let mut size = self.size_named(0);
        let mut below: u32 = 0;
        while a < self.number {
            let strip = self.strip_at(a);
            let top = below + strip.height;
            if passes(strip, top, size_at(self.job, size), blade) {
                return Err(Refusal::PastBoard.at(k + a));
            }
            let end = strip.end;
            below = self.next_below(end, top + blade);
            size = self.strip_plate(end, size);
            a = end;
        }
        Ok(())
    }
}
