// The line row of a fold text that ends.
ghost use Rattle.std.specs.Prelude.{◌≡◌};
ghost use Rattle.texts.specs.Reader.{Reader, text_row};
ghost use Rattle.texts.specs.FoldText.{Fold, fold_grammar};
ghost use Rattle.texts_reading.specs.Standing.{place_of, TextKept};
ghost use Rattle.texts_reading.specs.TextEnd.{text_verdict, LineNamed};
ghost use Rattle.fold_text_ending.specs.TextEnd.{may_end};

use texts_reading::line_row::{LineRefused, text_row};
use texts_reading::text::{Place, TextReader};

// Whether a fold text may end where it stands: in its body.
fn may_end(place: Place) -> bool
    ensures { result ≡ may_end (place_of place) }
{
    matches!(place, Place::Body)
}

// The line row, whole: 1, 2 or 19 for the first line refused; 1 for a last line without byte 10; 1 for a missing line, one past the last.
pub fn fold_row(text: TextReader) -> Result<(), LineRefused>
    ensures result_value { (r : Reader Fold) → TextKept (λ s. s.place) r text → text_verdict result ≡ text_row fold_grammar r }
    ensures line_named { LineNamed text.lines result }
{
    text_row(text, may_end(text.place))
}
