// The line row of one line's numbers: 1 another kind, running number or number of numbers, 2 a value outside its limits.
ghost use Rattle.std.specs.Prelude.{◌≡◌, [], ◌∷◌, ℕ, ◌<◌, length};
ghost use Rattle.texts.specs.Shape.{each_within, numbers_row};
ghost use Rattle.texts_reading.specs.Judged.{limits_of, shape_of, line_verdict, number_said};

use job::refused::Refusal;

// Whether each value is within its limits.
fn within_limits(values: &[u32], low: &[u32], high: &[u32]) -> bool
    requires { (length low.now ≡ length values.now) × (length high.now ≡ length values.now) }
    ensures { result ≡ each_within (limits_of low.now high.now) values.now }
{
    for i in 0..values.len() {
        if values[i] < low[i] || high[i] < values[i] {
            return false;
        }
    }
    true
}

// Judges a line's numbers: `head` is the kind and then the running number, where the kind has one.
pub fn judge(numbers: &[u32], head: &[u32], low: &[u32], high: &[u32]) -> Result<(), Refusal>
    requires { (0 < length head.now) × (length high.now ≡ length low.now) }
    ensures { (line : ℕ) → line_verdict (number_said result) line ≡ numbers_row line (shape_of head.now (limits_of low.now high.now) ∷ []) numbers.now }
{
    let from = head.len();
    if numbers.len() != from + low.len() {
        return Err(Refusal::Form);
    }
    if !numbers.starts_with(head) {
        return Err(Refusal::Form);
    }
    if !within_limits(&numbers[from..], low, high) {
        return Err(Refusal::Limits);
    }
    Ok(())
}
