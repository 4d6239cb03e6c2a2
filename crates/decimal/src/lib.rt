// Lines of a word and decimal numbers, written to lent bytes.
//
// Each function writes from place `at` on, as far as there is room, and returns the place after its text: so a slice of no places measures
// a text.
#![tactic(auto)]

ghost use Rattle.std.specs.Prelude.{◌≡◌, ◌∷◌, ◌+◌, ◌*◌, ◌^◌, ◌<◌, ◌≤◌, length, set};
ghost use Rattle.rules.specs.Text.{space, decimal, fields, text_of};
ghost use Rattle.decimal.specs.Puts.{limit, field_most, line_of, Puts};

// A byte or a number, where there is a place for it.
pub fn put<T: Copy>(x: T, out: &mut [T], at: usize) -> usize
    requires { at + 1 < 2 ^ 64 }
    ensures { (out.new ≡ set out.old at x) × (result ≡ at + 1) }
{
    if at >= out.len() {
        return at + 1;
    }
    out[at] = x;
    at + 1
}

pub fn put_bytes(text: &[u8], out: &mut [u8], at: usize) -> usize
    requires { at + length text.now ≤ limit }
    ensures { Puts text.now out.old at out.new result }
{
    let mut next = at;
    for b in text {
        next = put(*b, out, next);
    }
    next
}

pub fn put_decimal(n: u64, out: &mut [u8], at: usize) -> usize
    requires { at + 20 ≤ limit }
    ensures { Puts (decimal n) out.old at out.new result × (result ≤ at + 20) }
{
    if n < 10 {
        return put(b'0' + n as u8, out, at);
    }
    let next = put_decimal(n / 10, out, at);
    put(b'0' + (n % 10) as u8, out, next)
}

// A space and a number.
fn put_field(x: u64, out: &mut [u8], at: usize) -> usize
    requires { at + field_most ≤ limit }
    ensures { Puts (space ∷ decimal x) out.old at out.new result × (result ≤ at + field_most) }
{
    let next = put(b' ', out, at);
    put_decimal(x, out, next)
}

fn put_fields(numbers: &[u64], out: &mut [u8], at: usize) -> usize
    requires { at + field_most * length numbers.now ≤ limit }
    ensures { Puts (fields numbers.now) out.old at out.new result
        × (result ≤ at + field_most * length numbers.now) }
{
    let mut next = at;
    for x in numbers {
        next = put_field(*x, out, next);
    }
    next
}

// A line: a word, numbers, and a newline.
pub fn put_line(word: &[u8], numbers: &[u64], out: &mut [u8], at: usize) -> usize
    requires { at + length word.now + field_most * length numbers.now < limit }
    ensures { Puts (text_of (line_of word.now numbers.now)) out.old at out.new result
        × (result ≤ at + length word.now + field_most * length numbers.now + 1) }
{
    let named = put_bytes(word, out, at);
    let numbered = put_fields(numbers, out, named);
    put(b'\n', out, numbered)
}
