// What a line of layout words begins.
ghost use Rattle.std.specs.Prelude.{◌≡◌, ◌*◌, ◌≤◌, length, drop};
ghost use Rattle.job.specs.Sizes.{words_of_placement};
ghost use Rattle.layouts.specs.Lines.{rows_of, begun};
ghost use Rattle.layouts_strips.specs.Begun.{level_in, goes_on, begins_stack, begins_strip};
ghost use Rattle.layouts_strips.specs.First.{size_named, strip_plate};

use crate::lines::Lines;
use job::counters::PlateType;
use placement::placement_at;

// A further place of a stack, or the first of a stack, of a strip, of a board.
#[derive(Clone, Copy, Debug, PartialEq, Eq)]
pub enum Begins {
    Place,
    Stack,
    Strip,
    Board,
}

// What the line behind c others begins; past the last line only another board could begin.
// Words and a number in place of `Lines`, here and in two more: what may not change (`goes_on` and `begins_strip`, which ask for whole lines alone).
pub fn begins_at(layouts: &[u16], lines: usize, c: usize) -> Begins
    requires { (length layouts.now ≡ words_of_placement * lines) × (c ≤ lines) }
    ensures { level_in result ≡ begun (drop c (rows_of layouts.now)) }
{
    if lines <= c {
        return Begins::Board;
    }
    let line = placement_at(layouts, c);
    if line.place != 1 {
        return Begins::Place;
    }
    if line.stack != 1 {
        return Begins::Stack;
    }
    if line.strip != 1 {
        return Begins::Strip;
    }
    Begins::Board
}

// Whether the line goes on with a stack.
pub fn goes_on(layouts: &[u16], lines: usize, c: usize) -> bool
    requires { (length layouts.now ≡ words_of_placement * lines) × (c ≤ lines) }
    ensures { result ≡ goes_on (begun (drop c (rows_of layouts.now))) }
{
    begins_at(layouts, lines, c) == Begins::Place
}

// Whether the line begins a further strip of a board.
pub fn begins_strip(layouts: &[u16], lines: usize, c: usize) -> bool
    requires { (length layouts.now ≡ words_of_placement * lines) × (c ≤ lines) }
    ensures { result ≡ begins_strip (begun (drop c (rows_of layouts.now))) }
{
    begins_at(layouts, lines, c) == Begins::Strip
}

impl Lines<'_> {
    // What the line behind c others begins.
    pub fn begins_at(&self, c: usize) -> Begins
        requires { c ≤ self.now.number }
        ensures { level_in result ≡ begun (drop c (rows_of self.now.layouts.now)) }
    {
        begins_at(self.layouts, self.number, c)
    }

    // Whether the line begins a further stack of a strip.
    pub fn begins_stack(&self, c: usize) -> bool
        requires { c ≤ self.now.number }
        ensures { result ≡ begins_stack (begun (drop c (rows_of self.now.layouts.now))) }
    {
        self.begins_at(c) == Begins::Stack
    }

    // The size of its board that the line behind c others names, and 0 past the last line.
    pub fn size_named(&self, c: usize) -> PlateType
        ensures { result.0 ≡ size_named (drop c (rows_of self.now.layouts.now)) }
    {
        if self.number <= c {
            return PlateType(0);
        }
        placement_at(self.layouts, c).size
    }

    // A plate type for the strip that begins behind c lines: the given one where it is a further strip of a board, else the size of its board.
    pub fn strip_plate(&self, c: usize, further: PlateType) -> PlateType
        requires { c ≤ self.now.number }
        ensures { result.0 ≡ strip_plate (drop c (rows_of self.now.layouts.now)) further.0 }
    {
        if begins_strip(self.layouts, self.number, c) {
            return further;
        }
        self.size_named(c)
    }
}
