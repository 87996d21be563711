// The line row of a text that ends.
ghost use Rattle.std.specs.Prelude.{◌≡◌};
ghost use Rattle.texts_reading.specs.TextEnd.{end_row, text_verdict, LineNamed};

use crate::text::TextReader;
use job::refused::Refusal;

// A line refused: the number of its refusal, and its place. The number comes from a text's state, where a host may leave any (`feed`, clause `state-same`),
// and a `Refusal` holds 20 of them.
#[derive(Clone, Copy, Debug, PartialEq, Eq)]
pub struct LineRefused {
    pub number: u16,
    pub place: usize,
}

// The line row, whole: 1, 2 or 19 for the first line refused; 1 for a last line without byte 10; 1 for a missing line, one past the last, unless the text
// is whole where it stands.
pub fn text_row(text: TextReader, whole: bool) -> Result<(), LineRefused>
    ensures result_value { text_verdict result ≡ end_row text whole }
    ensures line_named { LineNamed text.lines result }
{
    let place = text.lines as usize + 1;
    if text.refusal != 0 {
        let number = text.refusal;
        return Err(LineRefused { number, place });
    }
    if text.pending.length != 0 || !whole {
        let number = Refusal::Form.number();
        return Err(LineRefused { number, place });
    }
    Ok(())
}
