// Whole lines of layout words, with the job whose items they lay.
ghost use Rattle.layouts_strips.specs.Measures.{LentLines};

// They are at most 4,000, each of an item type of the job and on a board of one of its sizes.
#[derive(Clone, Copy)]
pub struct Lines<'a> {
    pub job: &'a [u16],
    pub layouts: &'a [u16],
    pub number: usize,
    ghost lent: { LentLines job.now layouts.now number },
}
