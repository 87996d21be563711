// One number in nine columns: right-justified with blanks, no leading zeros, zero is "0".
ghost use Rattle.std.specs.Prelude.{◌≡◌, ◌+◌, ◌≤◌, length, take, drop};
ghost use Rattle.columns.specs.Widths.{front_bytes, lead_bytes, group_bytes};
ghost use Rattle.columns.specs.Group.{lead, group, number_of, put};
ghost use Rattle.columns.specs.Columns.{Column, Columns};
ghost use Rattle.columns.specs.Group.{mark as mark·of};

use crate::widths::{FRONT, GROUP, LEAD};
use crate::word::{blank_at, front_blank};

// One past the greatest number that the columns before the last hold.
const LEAD_LIMIT: u32 = 100_000_000;

// One past the greatest number that nine columns hold. In a value so far it says that no number begins so.
const LIMIT: u32 = 10 * LEAD_LIMIT;

// The number in the nine columns at a position, if they hold one.
pub fn number_at(s: &[u8], at: usize) -> Option<u32>
    ensures { result ≡ number_of (take group_bytes (drop at s.now)) }
{
    if s.len() < at || s.len() - at < GROUP {
        return None;
    }
    let b = s[at + LEAD];
    if b < b'0' || b > b'9' {
        return None;
    }
    let last = (b - b'0') as u32;
    if blank_at(s, at) {
        return Some(last);
    }
    let v = lead_at(s, at);
    if v >= LEAD_LIMIT {
        return None;
    }
    Some(v * 10 + last)
}

// The value of the first four columns.
fn front_at(s: &[u8], at: usize) -> u32
    requires { at + lead_bytes ≤ length s.now }
    ensures { Columns (take front_bytes (drop at s.now)) front_bytes result }
{
    if front_blank(s, at) {
        return 0;
    }
    let mut v = 0;
    for i in 0..FRONT {
        v = column(v, s[at + i]);
    }
    v
}

// The value of the eight columns before the last.
fn lead_at(s: &[u8], at: usize) -> u32
    requires { at + lead_bytes ≤ length s.now }
    ensures { Columns (take lead_bytes (drop at s.now)) lead_bytes result }
{
    let mut v = front_at(s, at);
    for i in FRONT..LEAD {
        v = column(v, s[at + i]);
    }
    v
}

// The value after one more column before the last: v, then the byte b.
fn column(v: u32, b: u8) -> u32
    ensures { Column v b result }
{
    if v >= LEAD_LIMIT {
        return LIMIT;
    }
    if b == b' ' {
        if v == 0 {
            return 0;
        }
        return LIMIT;
    }
    if b < b'0' || b > b'9' {
        return LIMIT;
    }
    let w = v * 10 + (b - b'0') as u32;
    if w == 0 {
        return LIMIT;
    }
    w
}

// The byte of a column before the last, where n stands in the columns up to it.
fn mark(n: u32) -> u8
    ensures { result ≡ mark·of n }
{
    if n == 0 {
        return b' ';
    }
    b'0' + (n % 10) as u8
}

// Writes n in the nine columns at a position.
pub fn put_number(out: &mut [u8], at: usize, n: u32)
    requires { at + group_bytes ≤ length out.old }
    ensures { out.new ≡ put out.old at (group n) }
{
    put_lead(out, at, n / 10);
    out[at + LEAD] = b'0' + (n % 10) as u8;
}

// Writes n in the eight columns before the last, from the right.
fn put_lead(out: &mut [u8], at: usize, n: u32)
    requires { at + lead_bytes ≤ length out.old }
    ensures { out.new ≡ put out.old at (lead lead_bytes n) }
{
    if n == 0 {
        put_blanks(out, at);
        return;
    }
    let mut rest = n;
    for i in (0..LEAD).rev() {
        out[at + i] = mark(rest);
        rest /= 10;
    }
}

// Writes eight blanks: the columns before the last of a number of one digit.
fn put_blanks(out: &mut [u8], at: usize)
    requires { at + lead_bytes ≤ length out.old }
    ensures { out.new ≡ put out.old at (lead lead_bytes 0) }
{
    out[at] = 32;
    out[at + 1] = 32;
    out[at + 2] = 32;
    out[at + 3] = 32;
    out[at + 4] = 32;
    out[at + 5] = 32;
    out[at + 6] = 32;
    out[at + 7] = 32;
}
