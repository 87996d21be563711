// Line 9, which a refusal alone is answered by.
ghost use Rattle.std.specs.Prelude.{[], ◌∷◌, ◌≤◌, ◌<◌, length};
ghost use Rattle.columns.specs.Line.{line_of};
ghost use Rattle.texts.specs.Widths.{refusal_line_bytes, place_limit};
ghost use Rattle.texts_writing.specs.Wrote.{Wrote};

use columns::line::put_line;
use texts::widths::REFUSAL_LINE;

// Writes line 9, a refusal's number and the place that it names, at the start of the output; its end is handed back.
pub fn write_refusal(out: &mut [u8], number: u16, place: usize) -> usize
    requires { (refusal_line_bytes ≤ length out.old) × (place < place_limit) }
    ensures { Wrote out.old 0 (line_of (9 ∷ number ∷ place ∷ [])) result out.new }
{
    let line = [9, number as u32, place as u32];
    put_line(out, 0, &line);
    REFUSAL_LINE
}
