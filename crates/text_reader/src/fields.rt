// A text in lent bytes: its lines, their fields, the numbers in these, and where a place is.
ghost use Rattle.std.specs.Prelude.{◌≡◌, [], ◌≢◌, ℕ, ◌+◌, ◌-◌, ◌*◌, ◌≤◌, ◌<◌, min, length, drop};
ghost use Rattle.numbers.specs.Decides.{Decides};
ghost use Rattle.rules.specs.Text.{zero_byte};
ghost use Rattle.decimal.specs.Plain.{IsDigit};
ghost use Rattle.grammar.specs.TableText.{part, until, max_number};
ghost use Rattle.grammar.specs.TableText as grammar;
ghost use Rattle.text_reader.specs.Walk.{is_sign, blank_is, IsNext, IsField, IsLine, IsNextLine, IsCell, IsSpot, most, stepped};

use crate::faults::{Fault, Wrong};

// ---- fields

// A stretch of bytes: its first place, and the place after it.
#[derive(Clone, Copy)]
pub struct Span {
    pub start: usize,
    pub end: usize,
}

fn is_blank(b: u8) -> bool
    ensures { result ≡ grammar.is_blank b }
{
    b == b' ' || b == b'\t' || b == b'\r'
}

fn is_stop(b: u8, blank: bool) -> bool
    ensures { result ≡ blank_is blank b }
{
    is_blank(b) == blank
}

// The first place from `at` on that has a blank, or with `blank` false none; the line's end where there is no such place.
fn stop(line: &[u8], at: usize, blank: bool) -> usize
    requires { at ≤ length line.now }
    ensures { (result ≡ at + until (blank_is blank) (drop at line.now)) × (result ≤ length line.now) }
{
    let rest = &line[at..];
    at + rest
        .iter()
        .position(|b| is_stop(*b, blank))
        .unwrap_or(rest.len())
}

// The first field from `at` on; an empty one at the line's end where there is none.
fn next_field(line: &[u8], at: usize) -> Span
    requires { at ≤ length line.now }
    ensures { (from : ℕ) → IsNext (part from line.now) at result }
{
    let start = stop(line, at, false);
    Span {
        start: start,
        end: stop(line, start, true),
    }
}

// Field number `k`; an empty one at the line's end where there is none.
pub fn field(line: &[u8], k: usize) -> Span
    ensures { (from : ℕ) → IsField (part from line.now) k result }
{
    let mut found = next_field(line, 0);
    for _ in 0..k {
        found = next_field(line, found.end);
    }
    found
}

// Whether there is a field number `k`.
pub fn has_field(line: &[u8], k: usize) -> bool
    ensures { (from : ℕ) → Decides ((grammar.field (part from line.now) k).bytes ≢ []) result }
{
    let found = field(line, k);
    found.start < found.end
}

// ---- lines

// A line as far as its comment, and the place where the next one starts.
#[derive(Clone, Copy)]
pub struct Line {
    pub start: usize,
    pub end: usize,
    pub next: usize,
}

// The first place of `sign`; the end where there is none.
fn find(bytes: &[u8], sign: u8) -> usize
    ensures { (result ≡ until (is_sign sign) bytes.now) × (result ≤ length bytes.now) }
{
    bytes.iter().position(|b| *b == sign).unwrap_or(bytes.len())
}

// The line that starts at `at`.
fn line_at(text: &[u8], at: usize) -> Line
    requires { at ≤ length text.now }
    ensures { IsLine text.now at result }
{
    let end = at + find(&text[at..], b'\n');
    Line {
        start: at,
        end: at + find(&text[at..end], b'#'),
        next: end + 1,
    }
}

// The first line from `from` on that has a field; an empty one where there is none.
pub fn next_line(text: &[u8], from: usize) -> Line
    requires { from ≤ length text.now + 1 }
    ensures { IsNextLine text.now from result }
{
    // It goes from line to line, not over a range: where the next line starts, only this one tells.
    let mut at = from;
    while at <= text.len() {
        let line = line_at(text, at);
        let start = line.start;
        let end = line.end;
        let first = next_field(&text[start..end], 0);
        if first.start < first.end {
            return line;
        }
        at = line.next;
    }
    Line {
        start: text.len(),
        end: text.len(),
        next: at,
    }
}

// ---- numbers

fn is_digit(b: u8) -> bool
    ensures { Decides (IsDigit b) result }
{
    b.is_ascii_digit()
}

// A number with one digit more, as far as 65,536.
fn grow(x: u32, digit: u8) -> u32
    requires { (x ≤ max_number + 1) × IsDigit digit }
    ensures { result ≡ min (x * 10 + (digit - zero_byte)) (max_number + 1) }
{
    (x * 10 + (digit - b'0') as u32).min(65536)
}

// The number in a field that starts at `place`.
pub fn number(digits: &[u8], place: usize) -> Result<u16, Fault>
    ensures { IsCell (part place digits.now) result }
{
    let mut x: u32 = 0;
    for b in digits {
        if !is_digit(*b) {
            return Err(Fault {
                wrong: Wrong::NoNumber,
                place,
            });
        }
        x = grow(x, *b);
    }
    if x > 65535 {
        return Err(Fault {
            wrong: Wrong::LargeNumber,
            place,
        });
    }
    Ok(x as u16)
}

// ---- places

// A line and a column, counted from 1.
#[derive(Clone, Copy)]
pub struct Spot {
    pub line: usize,
    pub column: usize,
}

// Past byte `b`.
fn step(spot: Spot, b: u8) -> Spot
    requires { (spot.line ≤ most) × (spot.column ≤ most) }
    ensures { result ≡ stepped spot b }
{
    if b == b'\n' {
        return Spot {
            line: spot.line + 1,
            column: 1,
        };
    }
    Spot {
        line: spot.line,
        column: spot.column + 1,
    }
}

// Where place `place` is.
pub fn spot_of(text: &[u8], place: usize) -> Spot
    ensures { IsSpot text.now place result }
{
    let end = place.min(text.len());
    let mut at = Spot { line: 1, column: 1 };
    for b in &text[..end] {
        at = step(at, *b);
    }
    at
}
