// The lines of a fold text: kinds 1, 10, 2 and 7.
ghost use Rattle.std.specs.Prelude.{◌≡◌, List, [], ◌∷◌, ◌++◌, ℕ, suc, ◌*◌, ◌≤◌, ◌<◌, length, get_or, take, drop};
ghost use Rattle.std.proofs.Math.Option.{some};
ghost use Rattle.job.specs.Sizes.{max_sizes, max_types, words_of_placement, longest_job};
ghost use Rattle.listing.specs.Holds.{Holds};
ghost use Rattle.texts.specs.Shape.{layout_line, numbers_row};
ghost use Rattle.texts.specs.Reader.{max_lines, line_read};
ghost use Rattle.texts.specs.JobLines.{board_sizes, types_of};
ghost use Rattle.texts.specs.FoldText.{fold_grammar};
ghost use Rattle.texts_reading.specs.Judged.{line_verdict, number_said};
ghost use Rattle.texts_reading.specs.Standing.{TextAt};
ghost use Rattle.fold_text_reader.specs.FoldKept.{layouts_size, held_words, FoldReady, Step};

use crate::fold::FoldReader;
use job::counters::{ItemType, PlateType};
use job::head::head_of;
use job::refused::Refusal;
use job::sizes::{HEAD_WORDS, ITEM_WORDS, MAX_PIECES, PLACEMENT_WORDS, SIZE_WORDS};
use texts_reading::job_lines::{read_first, read_item, read_size};
use texts_reading::kinds::layout_line;
use texts_reading::text::Place;
use texts_reading::words::put_words;

// The most lines of kind 7 whose words are kept.
pub const MOST_ROWS: u32 = MAX_PIECES as u32;

// Keeps the words of a line of kind 7 behind those of the lines before it, if there are fewer than 4,000.
fn keep_row(layouts: &mut [u16], rows: u32, numbers: &[u32])
    requires { (layouts_size ≤ length layouts.old) × ((length numbers.now ≡ suc words_of_placement) × ((k : ℕ) → k < words_of_placement → get_or (drop 1 numbers.now) k 0 < 65536)) }
    ensures { (ws : List ℕ) → length ws ≡ words_of_placement * rows → Holds layouts.old (take layouts_size ws) → Holds layouts.new (take layouts_size (ws ++ drop 1 numbers.now)) }
{
    if rows >= MOST_ROWS {
        return;
    }
    put_words(layouts, PLACEMENT_WORDS * (rows as usize), &numbers[1..]);
}

// Judges a line of kind 7 by the words of its job: as many as its own numbers of sizes and of types say.
fn judge_layout(numbers: &[u32], job: &[u16]) -> Result<(), Refusal>
    requires { (longest_job ≤ length job.now) × ((board_sizes job.now ≤ max_sizes) × (types_of job.now ≤ max_types)) }
    ensures { (line : ℕ) → line_verdict (number_said result) line ≡ numbers_row line (layout_line (held_words job.now) ∷ []) numbers.now }
{
    let head = head_of(job);
    let words = HEAD_WORDS
        + SIZE_WORDS * (head.sizes.0 as usize)
        + ITEM_WORDS * (head.types.0 as usize);
    layout_line(numbers, &job[..words])
}

impl FoldReader {
    // The line after those admitted is refused.
    pub fn refused(self, number: u16) -> FoldReader
        ensures { (TextAt result.text self.text.place self.text.lines number []) × (result.rows ≡ self.rows) }
    {
        FoldReader {
            text: self.text.refused(number),
            rows: self.rows,
        }
    }

    // Line 1.
    fn first(self, numbers: &[u32], job: &mut [u16]) -> FoldReader
        requires { (self.text.place ≡ Place.First) × ((self.text.lines < max_lines) × (longest_job ≤ length job.old)) }
        ensures { (layouts : List ℕ) → FoldReady self job.old layouts → Step (λ q. line_read fold_grammar q (some numbers.now)) self job.old layouts result job.new layouts }
    {
        match read_first(numbers, job) {
            Err(refusal) => self.refused(refusal.number()),
            Ok(()) => FoldReader {
                text: self.text.admitted(Place::Sizes(PlateType(0))),
                rows: 0,
            },
        }
    }

    // Line 10 of size j.
    fn size(self, j: PlateType, numbers: &[u32], job: &mut [u16]) -> FoldReader
        requires place_value { (self.text.place ≡ Place.Sizes j) × ((self.text.lines < max_lines) × (longest_job ≤ length job.old)) }
        requires j_lt_max_sizes { j.0 < max_sizes }
        ensures { (layouts : List ℕ) → FoldReady self job.old layouts → Step (λ q. line_read fold_grammar q (some numbers.now)) self job.old layouts result job.new layouts }
    {
        match read_size(numbers, j, job) {
            Err(refusal) => self.refused(refusal.number()),
            Ok(()) => {
                let head = head_of(job);
                if head.sizes.0 == j.0 + 1 {
                    return FoldReader {
                        text: self.text.admitted(Place::Types(ItemType(1))),
                        rows: 0,
                    };
                }
                FoldReader {
                    text: self.text.admitted(Place::Sizes(PlateType(j.0 + 1))),
                    rows: 0,
                }
            }
        }
    }

    // Line 2 of type i.
    fn item(self, i: ItemType, numbers: &[u32], job: &mut [u16]) -> FoldReader
        requires place_value { (self.text.place ≡ Place.Types i) × ((self.text.lines < max_lines) × (longest_job ≤ length job.old)) }
        requires le_i { (1 ≤ i.0) × ((i.0 ≤ max_types) × (board_sizes job.old ≤ max_sizes)) }
        ensures { (layouts : List ℕ) → FoldReady self job.old layouts → Step (λ q. line_read fold_grammar q (some numbers.now)) self job.old layouts result job.new layouts }
    {
        match read_item(numbers, i, job) {
            Err(refusal) => self.refused(refusal.number()),
            Ok(()) => {
                let head = head_of(job);
                if head.types.0 == i.0 {
                    return FoldReader {
                        text: self.text.admitted(Place::Body),
                        rows: 0,
                    };
                }
                FoldReader {
                    text: self.text.admitted(Place::Types(ItemType(i.0 + 1))),
                    rows: 0,
                }
            }
        }
    }

    // A line of kind 7.
    fn layout(self, numbers: &[u32], job: &[u16], layouts: &mut [u16]) -> FoldReader
        requires place_value { (self.text.place ≡ Place.Body) × (self.text.lines < max_lines) }
        requires fold_ready { FoldReady self job.now layouts.old }
        ensures { Step (λ q. line_read fold_grammar q (some numbers.now)) self job.now layouts.old result job.now layouts.new }
    {
        match judge_layout(numbers, job) {
            Err(refusal) => self.refused(refusal.number()),
            Ok(()) => {
                keep_row(layouts, self.rows, numbers);
                FoldReader {
                    text: self.text.admitted(Place::Body),
                    rows: self.rows + 1,
                }
            }
        }
    }

    // The numbers of the next line.
    pub fn numbers(self, numbers: &[u32], job: &mut [u16], layouts: &mut [u16]) -> FoldReader
        requires lines_lt_max_lines { self.text.lines < max_lines }
        requires fold_ready { FoldReady self job.old layouts.old }
        ensures { Step (λ q. line_read fold_grammar q (some numbers.now)) self job.old layouts.old result job.new layouts.new }
    {
        match self.text.place {
            Place::First => self.first(numbers, job),
            Place::Sizes(j) => self.size(j, numbers, job),
            Place::Types(i) => self.item(i, numbers, job),
            Place::Body => self.layout(numbers, job, layouts),
            _ => self.refused(Refusal::Form.number()),
        }
    }
}
