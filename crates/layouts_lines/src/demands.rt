// 11: the lines of each item type, counted, against its demand.
ghost use Rattle.std.specs.Prelude.{◌≡◌, [], ◌*◌, ◌≤◌, ◌<◌, length};
ghost use Rattle.job.specs.Sizes.{max_types, max_pieces, words_of_placement};
ghost use Rattle.job.specs.Verdict.{pass, lowest};
ghost use Rattle.job.specs.Refused.{row_verdict};
ghost use Rattle.job.specs.Job.{job_of, job_words};
ghost use Rattle.layouts.specs.Lines.{rows_of, layout_words};
ghost use Rattle.layouts.specs.LayoutsRow.{lacks};
ghost use Rattle.layouts_lines.specs.LineSums.{OfTypes, SumsOf};

use job::demands::types_short;
use job::head::head_of;
use job::refused::Refused;
use job::sizes::TYPE_SUMS;
use placement::placement_at;

// Counts the lines by item type.
fn count_lines(layouts: &[u16], lines: usize, sums: &mut [u16])
    requires layouts_len { (length layouts.now ≡ words_of_placement * lines) × ((lines ≤ max_pieces) × (OfTypes max_types lines layouts.now)) }
    requires max_types_in_bounds { (max_types < length sums.old) × (SumsOf [] sums.old) }
    ensures { SumsOf (rows_of layouts.now) sums.new }
{
    for c in 0..lines {
        let i = placement_at(layouts, c).item.0 as usize;
        sums[i] += 1;
    }
}

// 11 for the lowest item type that lies in the lines less often than demanded, once the words of job and layouts have passed.
pub fn lacking_row(job: &[u16], layouts: &[u16], lines: usize) -> Result<(), Refused>
    requires job_value { (job_words job.now ≡ pass) × (layout_words (job_of job.now) layouts.now ≡ pass) }
    requires layouts_len { (length layouts.now ≡ words_of_placement * lines) × (lines ≤ max_pieces) }
    ensures { row_verdict result ≡ lowest 11 (lacks (rows_of layouts.now)) 1 (job_of job.now).items }
{
    let head = head_of(job);
    let mut sums = [0u16; TYPE_SUMS];
    count_lines(layouts, lines, &mut sums);
    types_short(job, head.types, &sums)
}
