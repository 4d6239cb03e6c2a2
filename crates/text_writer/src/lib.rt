// The writer of tables in text: from numbers in memory to a text.
//
// Each `put_` function writes from place `at` on, as far as there is room, and returns the place after what it wrote.
#![tactic(auto)]

ghost use Rattle.std.specs.Prelude.{◌≡◌, [], ◌∷◌, ◌+◌, ◌*◌, ◌≤◌, length};
ghost use Rattle.numbers.specs.Lists.{each};
ghost use Rattle.rules.specs.Bounds.{max_rows};
ghost use Rattle.rules.specs.TableFile.{row_numbers, memory_labelled_with};
ghost use Rattle.decimal.specs.Puts.{limit, max_line, Puts, PutsLine, PutsLines};
ghost use Rattle.grammar.specs.TableText.{head_line, note, row_line, table_text, TextWritten};
ghost use Rattle.table.specs.Refusal.{number, place};
ghost use Rattle.text_writer.specs.Lines.{number_line, size_in, WrittenWith};

use decimal::{put_bytes, put_decimal, put_line};
use table::{Reason, Refusal, Row, Table, is_no_mark, rings_of, row_bytes};
use writer::{check_version, row_of};

fn put_heading(rings: usize, elements: u64, out: &mut [u8]) -> usize
    ensures { PutsLine (head_line rings elements) out.old 0 out.new result }
{
    if rings == Table::RINGS {
        return put_line(b"board", &[elements], out, 0);
    }
    put_line(b"elements", &[elements], out, 0)
}

// What stands in a row, as a comment.
fn put_note(rings: usize, version: u64, out: &mut [u8], at: usize) -> usize
    requires { at + max_line ≤ limit }
    ensures { PutsLine (note rings version) out.old at out.new result }
{
    if rings == Table::RINGS {
        return put_bytes(b"# cost period first second direction\n", out, at);
    }
    if version == Table::VERSION_2 {
        return put_bytes(b"# cost period first second label\n", out, at);
    }
    put_bytes(b"# cost period first second\n", out, at)
}

// The line of a row that has its last number for a label.
fn put_row(rings: usize, version: u64, row: Row, out: &mut [u8], at: usize) -> usize
    requires { at + max_line * 2 ≤ limit }
    ensures { PutsLine (number_line rings version row) out.old at out.new result }
{
    let period = row.period as u64;
    let first = row.first as u64;
    let second = row.second as u64;
    let label = row.label as u64;
    let next = put_decimal(row.cost as u64, out, at);
    if row_bytes(rings, version) == Table::ROW_BYTES {
        return put_line(b"", &[period, first, second], out, next);
    }
    put_line(b"", &[period, first, second, label], out, next)
}

// The lines of all rows of a slice.
fn put_rows(
    rings: usize,
    version: u64,
    numbers: &[u16],
    rows: usize,
    out: &mut [u8],
    at: usize,
) -> usize
    requires { (rows ≤ max_rows) × (row_numbers * rows ≤ length numbers.now) × (at + max_line * (rows + 1) ≤ limit) }
    ensures { PutsLines (each rows (λ i. row_line version (memory_labelled_with rings 0 rows numbers.now) i ∷ [])) rows
        out.old at out.new result }
{
    let mut next = at;
    for i in 0..rows {
        next = put_row(rings, version, row_of(1, numbers, i), out, next);
    }
    next
}

// The whole text.
fn put_text(
    rings: usize,
    version: u64,
    elements: u64,
    rows: usize,
    numbers: &[u16],
    out: &mut [u8],
) -> usize
    requires { (rows ≤ max_rows) × (row_numbers * rows ≤ length numbers.now) }
    ensures { Puts (table_text version (memory_labelled_with rings elements rows numbers.now)) out.old 0
        out.new result }
{
    let headed = put_heading(rings, elements, out);
    let noted = put_note(rings, version, out, headed);
    put_rows(rings, version, numbers, rows, out, noted)
}

// How many bytes it has.
fn text_size(rings: usize, version: u64, elements: u64, rows: usize, numbers: &[u16]) -> usize
    requires { (rows ≤ max_rows) × (row_numbers * rows ≤ length numbers.now) }
    ensures { result ≡ length (table_text version (memory_labelled_with rings elements rows numbers.now)) }
{
    let mut none = [0u8; 0];
    put_text(rings, version, elements, rows, numbers, &mut none)
}

// The text of a slice whose mark is known, and how many bytes it has.
fn write_with(
    rings: usize,
    version: u64,
    elements: u64,
    rows: u64,
    numbers: &[u16],
    out: &mut [u8],
) -> Result<usize, Refusal>
    ensures { WrittenWith rings version elements rows numbers.now out.old out.new
        (number result) (place result) (size_in result) }
{
    check_version(rings, version, elements as usize, rows as usize, numbers)?;
    let count = rows as usize;
    let size = text_size(rings, version, elements, count, numbers);
    if out.len() < size {
        return Err(Reason::ShortOutput.into());
    }
    put_text(rings, version, elements, count, numbers, out);
    Ok(size)
}

// The writer: checks 2 to 9, 26, 20, then 17. Fills the front of `out` with the text, in version 2 with labels and with two rings with
// directions; it answers how many bytes the text has.
pub fn write(
    mark: &[u8],
    version: u64,
    elements: u64,
    rows: u64,
    numbers: &[u16],
    out: &mut [u8],
) -> Result<usize, Refusal>
    ensures { TextWritten mark.now version elements rows numbers.now out.old out.new
        (number result) (place result) (size_in result) }
{
    if is_no_mark(mark) {
        return Err(Reason::WrongMark.into());
    }
    write_with(rings_of(mark), version, elements, rows, numbers, out)
}
