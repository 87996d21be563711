// The words that a call leaves to its host: three, and four of the unfolding.
ghost use Rattle.std.specs.Prelude.{◌≡◌, [], ◌∷◌};
ghost use Rattle.job.specs.Buffers.{given, refused};
ghost use Rattle.answers.specs.AnswerWords.{place_word, answer_words, four_words};

// Three words and four have their own functions: over `const N: usize`, `accept` would take N − 1 values, a count that Rattle has not, and `refuse` would require 2 ≤ N.

// Accepted, with a first and a second value.
pub fn accept(answer: &mut [u32; 3], first: u32, second: u32)
    ensures { answer.new ≡ answer_words (given (first ∷ second ∷ [])) }
{
    *answer = [0, first, second];
}

// Accepted, with three values.
pub fn accept_four(answer: &mut [u32; 4], first: u32, second: u32, third: u32)
    ensures { answer.new ≡ four_words (given (first ∷ second ∷ third ∷ [])) }
{
    *answer = [0, first, second, third];
}

// A place as a word: itself, or 4,294,967,295 where it is above that.
fn place_word(place: usize) -> u32
    ensures { result ≡ place_word place }
{
    u32::try_from(place).unwrap_or(u32::MAX)
}

// Refused, with a number of the table and the place that it names.
pub fn refuse(answer: &mut [u32; 3], number: u16, place: usize)
    ensures { answer.new ≡ answer_words (refused number place) }
{
    *answer = [number as u32, place_word(place), 0];
}

// The same of four words.
pub fn refuse_four(answer: &mut [u32; 4], number: u16, place: usize)
    ensures { answer.new ≡ four_words (refused number place) }
{
    *answer = [number as u32, place_word(place), 0, 0];
}
