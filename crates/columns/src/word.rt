// The columns before the last gathered in one word (document 02, Three).
ghost use Rattle.std.specs.Prelude.{◌≡◌, ◌↔◌, true, ◌+◌, ◌≤◌, ◌<◌, length, take, drop};
ghost use Rattle.columns.specs.Widths.{front_bytes, lead_bytes};
ghost use Rattle.columns.specs.Words.{word_of, Blank};

// The word of eight blanks.
const BLANKS: u64 = 0x2020_2020_2020_2020;

// The word of four blanks, and one past the greatest word of four bytes.
const FOUR_BLANKS: u64 = 0x2020_2020;

const FOUR_BYTES: u64 = 0x1_0000_0000;

// A byte as a word.
fn wide(b: u8) -> u64
    ensures { (result ≡ b) × (result < 256) }
{
    b as u64
}

// The eight bytes at a position as one word, the first lowest: a sum in this order is compiled to one load.
fn word_at(s: &[u8], at: usize) -> u64
    requires { at + lead_bytes ≤ length s.now }
    ensures { result ≡ word_of (take lead_bytes (drop at s.now)) }
{
    let a = wide(s[at]);
    let b = wide(s[at + 1]);
    let c = wide(s[at + 2]);
    let d = wide(s[at + 3]);
    let e = wide(s[at + 4]);
    let f = wide(s[at + 5]);
    let g = wide(s[at + 6]);
    let h = wide(s[at + 7]);
    a + 0x100 * b
        + 0x1_0000 * c
        + 0x100_0000 * d
        + 0x1_0000_0000 * e
        + 0x100_0000_0000 * f
        + 0x1_0000_0000_0000 * g
        + 0x100_0000_0000_0000 * h
}

// Whether the eight columns before the last are blank, as those of a digit alone are.
pub fn blank_at(s: &[u8], at: usize) -> bool
    requires { at + lead_bytes ≤ length s.now }
    ensures { (result ≡ true) ↔ Blank (take lead_bytes (drop at s.now)) }
{
    word_at(s, at) == BLANKS
}

// Whether the first four columns are blank, as those of numbers up to 99,999 are.
pub fn front_blank(s: &[u8], at: usize) -> bool
    requires { at + lead_bytes ≤ length s.now }
    ensures { result ≡ true → Blank (take front_bytes (drop at s.now)) }
{
    word_at(s, at) % FOUR_BYTES == FOUR_BLANKS
}
