// Reads the cases of the case programs: a line each, with a heading, a colon, and numbers.
#![tactic(auto)]

ghost use Rattle.std.specs.Prelude.{◌≡◌, cond, [], ◌∷◌, ◌+◌, ◌*◌, ◌/◌, ◌%◌, ◌≤◌, ◌<◌};
ghost use Rattle.numbers.specs.Lists.{at as item, each};
ghost use Rattle.decimal.specs.Puts.{limit, Puts};
ghost use Rattle.cases.specs.Tables.{low, high, row_numbers, row_bytes, way_bytes, row_at, file_bytes};
ghost use Rattle.cases.specs.Reading.{FoundAt, largest, grown, ended_number, numbers_in};

use decimal::{put, put_bytes};
use table::Table;

// ---- the text

// The first place of `byte` in `text`, at `from` or after it; the end of the text where there is none.
pub fn find(text: &[u8], from: usize, byte: u8) -> usize
    ensures { FoundAt text.now from byte result }
{
    for i in from..text.len() {
        if text[i] == byte {
            return i;
        }
    }
    text.len()
}

// A number with one digit more, as far as 64 bits hold it; 0 where the byte is none.
#[tactic(auto, unfolding(crate::specs::Reading::grown, crate::specs::Reading::is_digit))]
fn grow(x: u64, byte: u8) -> u64
    ensures { result ≡ grown x byte }
{
    match byte {
        b'0'..=b'9' => x.saturating_mul(10).saturating_add(u64::from(byte - b'0')),
        _ => 0,
    }
}

// A number that has ended, if one has, is written to place `k`, where there is room; the place after it.
#[tactic(auto, unfolding(crate::specs::Reading::ended))]
fn put_ended(ended: Option<u64>, out: &mut [u64], k: usize) -> usize
    requires { k < largest }
    ensures { Puts (ended_number ended) out.old k out.new result }
{
    match ended {
        Some(x) => put(x, out, k),
        None => k,
    }
}

// The numbers that stand in `text`, written to `out` as far as there is room; how many they are.
pub fn numbers(text: &[u8], out: &mut [u64]) -> usize
    ensures { Puts (numbers_in text.now) out.old 0 out.new result }
{
    let mut k: usize = 0;
    let mut open: Option<u64> = None;
    for byte in text {
        if byte.is_ascii_digit() {
            open = Some(grow(open.unwrap_or(0), *byte));
        } else {
            k = put_ended(open, out, k);
            open = None;
        }
    }
    put_ended(open, out, k)
}

// ---- tables

fn low_byte(x: u64) -> u8
    ensures { result ≡ low x }
{
    (x % 256) as u8
}

fn high_byte(x: u64) -> u8
    ensures { result ≡ high x }
{
    (x / 256 % 256) as u8
}

// The number at place `k`, 0 past the end.
pub fn number_at(xs: &[u64], k: usize) -> u64
    ensures { result ≡ item xs.now k }
{
    xs.get(k).copied().unwrap_or(0)
}

fn put_row(xs: &[u64], k: usize, out: &mut [u8], next: usize) -> usize
    requires { (k + 4 ≤ limit) × (next + 6 ≤ limit) }
    ensures { Puts (row_bytes xs.now k) out.old next out.new result }
{
    let cost = number_at(xs, k);
    let period = number_at(xs, k + 1);
    let first = number_at(xs, k + 2);
    let second = number_at(xs, k + 3);
    put_bytes(
        &[
            low_byte(cost),
            high_byte(cost),
            low_byte(period),
            high_byte(period),
            low_byte(first),
            low_byte(second),
        ],
        out,
        next,
    )
}

fn put_way(board: bool, x: u64, out: &mut [u8], next: usize) -> usize
    requires { next + 1 ≤ limit }
    ensures { Puts (way_bytes board x) out.old next out.new result }
{
    if board {
        return put_bytes(&[low_byte(x)], out, next);
    }
    next
}

// How many numbers a row is.
fn row_numbers(board: bool) -> usize
    ensures { (result ≡ row_numbers board) × (4 ≤ result) × (result ≤ 5) }
{
    if board { 5 } else { 4 }
}

fn put_rows(board: bool, xs: &[u64], rows: usize, out: &mut [u8], at: usize) -> usize
    requires { (5 * rows + 5 ≤ limit) × (at + 7 * rows ≤ limit) }
    ensures { Puts (each rows (λ i. row_at board xs.now (1 + row_numbers board * i))) out.old at
        out.new result }
{
    let size = row_numbers(board);
    let mut next = at;
    for i in 0..rows {
        let k = 1 + size * i;
        next = put_row(xs, k, out, next);
        next = put_way(board, number_at(xs, k + 4), out, next);
    }
    next
}

// The last byte of the mark.
fn mark_end(board: bool) -> u8
    ensures { result ≡ cond board 0x32 0x54 }
{
    if board { b'2' } else { b'T' }
}

// The table file of the elements and rows that `xs` has, with no check of them, or that of a board; how many bytes it is.
pub fn table_file(board: bool, xs: &[u64], out: &mut [u8]) -> usize
    ensures { Puts (file_bytes board xs.now) out.old 0 out.new result }
{
    let rows = (xs.len() / row_numbers(board)).min(Table::ROWS + 1);
    let elements = low_byte(number_at(xs, 0));
    let head = [
        b'R',
        b'B',
        mark_end(board),
        1,
        0,
        elements,
        low_byte(rows as u64),
    ];
    let next = put_bytes(&head, out, 0);
    put_rows(board, xs, rows, out, next)
}
