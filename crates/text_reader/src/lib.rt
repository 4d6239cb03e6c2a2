// The reader of tables in text: from a text to numbers in memory.
//
// A line is lent as far as its comment, and `from` is the place of the text where it starts.
#![tactic(auto)]

mod faults;
mod fields;

ghost use Rattle.std.specs.Prelude.{◌≡◌, [], ◌∷◌, ℕ, ◌+◌, ◌*◌, ◌≤◌, ◌<◌, length};
ghost use Rattle.numbers.specs.Decides.{Decides};
ghost use Rattle.rules.specs.Bounds.{max_rows};
ghost use Rattle.rules.specs.TableFile.{row_numbers};
ghost use Rattle.rules.specs.Refusals.{Answers, wrong_elements};
ghost use Rattle.rules.specs.Calls.{lent};
ghost use Rattle.table.specs.Rows.{sized};
ghost use Rattle.grammar.specs.TableText as grammar;
ghost use Rattle.grammar.specs.TableText.{part, max_text, rings_in, text_rings, text_table, missing_field, spare_field, value_checks};
ghost use Rattle.grammar.specs.TableText.{TextRead};
ghost use Rattle.table.specs.Refusal.{number_of};
ghost use Rattle.reader.specs.Reading.{mark_in, version_in, elements_in, rows_in};
ghost use Rattle.text_reader.specs.Faults.{number as told, place};
ghost use Rattle.text_reader.specs.Walk.{IsCell};
ghost use Rattle.text_reader.specs.Reading.{AreCells, IsRowOf, in_ring, IsForm, IsRowAt, IsHeading, blame};
ghost use Rattle.text_reader.specs.Reading.{Rest, AreRows, AreLines, version_for};

pub use faults::{Fault, Wrong, number, place};
use fields::{field, has_field, next_line};
pub use fields::{Spot, spot_of};
use reader::Reading;
use table::{Reason, Row, Table, label_in, mark_byte, way_in};

// ---- a line

// The place where field `k` starts.
fn place_of(line: &[u8], from: usize, k: usize) -> usize
    requires { from + length line.now ≤ max_text }
    ensures { result ≡ (grammar.field (part from line.now) k).start }
{
    from + field(line, k).start
}

// The number in field `k`.
fn cell_at(line: &[u8], from: usize, k: usize) -> Result<u16, Fault>
    requires { from + length line.now ≤ max_text }
    ensures { IsCell (grammar.field (part from line.now) k) result }
{
    let found = field(line, k);
    let start = found.start;
    let end = found.end;
    fields::number(&line[start..end], from + start)
}

// Whether field `needed` is missing, or there is a field `spare`.
fn shape_fault(line: &[u8], from: usize, needed: usize, spare: usize) -> Result<(), Fault>
    requires { from + length line.now ≤ max_text }
    ensures { Answers (missing_field (grammar.field (part from line.now) needed)
        ∷ spare_field (grammar.field (part from line.now) spare) ∷ []) (told result) (place result) }
{
    if !has_field(line, needed) {
        return Err(Fault {
            wrong: Wrong::MissingField,
            place: place_of(line, from, needed),
        });
    }
    if has_field(line, spare) {
        return Err(Fault {
            wrong: Wrong::SpareField,
            place: place_of(line, from, spare),
        });
    }
    Ok(())
}

// ---- the heading

// What the heading says.
#[derive(Clone, Copy)]
pub struct Heading {
    pub elements: u16,
    pub rings: usize,
}

// Check 4.
fn is_wrong_size(elements: u16) -> bool
    ensures { Decides (wrong_elements (sized elements 1)).applies result }
{
    if elements < 2 {
        return true;
    }
    elements > 32
}

// Whether the line begins with this word.
fn is_word(line: &[u8], word: &[u8]) -> bool
    ensures { (from : ℕ) → Decides ((grammar.field (part from line.now) 0).bytes ≡ word.now) result }
{
    let first = field(line, 0);
    let start = first.start;
    let end = first.end;
    &line[start..end] == word
}

// Check 36.
fn is_no_heading(line: &[u8]) -> bool
    ensures { (from : ℕ) → Decides (grammar.no_heading (part from line.now)).applies result }
{
    if is_word(line, b"elements") {
        return false;
    }
    if is_word(line, b"board") {
        return false;
    }
    true
}

// How many rings a heading says.
fn rings_in(line: &[u8]) -> usize
    ensures { (from : ℕ) → result ≡ rings_in (part from line.now) }
{
    let word = field(line, 0);
    let start = word.start;
    if start == word.end {
        return 1;
    }
    if line[start] == b'b' {
        return Table::RINGS;
    }
    1
}

fn heading_of(line: &[u8], from: usize) -> Result<Heading, Fault>
    requires { from + length line.now ≤ max_text }
    ensures { IsHeading (part from line.now) result }
{
    if is_no_heading(line) {
        return Err(Fault {
            wrong: Wrong::NoHeading,
            place: place_of(line, from, 0),
        });
    }
    let elements = cell_at(line, from, 1)?;
    shape_fault(line, from, 1, 2)?;
    if is_wrong_size(elements) {
        return Err(Fault {
            wrong: Wrong::Table(Reason::WrongElements),
            place: place_of(line, from, 1),
        });
    }
    Ok(Heading {
        elements,
        rings: rings_in(line),
    })
}

// ---- a row

// The first four numbers of a row.
fn first_cells(line: &[u8], from: usize) -> Result<[u16; 4], Fault>
    requires { from + length line.now ≤ max_text }
    ensures { AreCells (part from line.now) result }
{
    let mut value = [0u16; 4];
    for k in 0..4 {
        value[k] = cell_at(line, from, k)?;
    }
    Ok(value)
}

// The last field that a row must have.
fn needed(rings: usize) -> usize
    ensures { result ≡ grammar.needed rings }
{
    if rings == Table::RINGS { 4 } else { 3 }
}

// The fields of a row, from left to right: its last number stands for a label.
fn form_of(line: &[u8], from: usize, rings: usize) -> Result<Row, Fault>
    requires { from + length line.now ≤ max_text }
    ensures { IsForm rings (part from line.now) result }
{
    let value = first_cells(line, from)?;
    let last = cell_at(line, from, 4)?;
    shape_fault(line, from, needed(rings), 5)?;
    Ok(Row {
        cost: value[0],
        period: value[1],
        first: value[2],
        second: value[3],
        way: 0,
        label: last,
    })
}

// The row, with the direction and the label that its last number tells.
fn in_ring(rings: usize, row: Row) -> Row
    ensures { result ≡ in_ring rings row }
{
    Row {
        cost: row.cost,
        period: row.period,
        first: row.first,
        second: row.second,
        way: way_in(rings, row.label),
        label: label_in(rings, row.label),
    }
}

// The field that check 7, 8, 9 or 26 is told at: of 7 the second end, where the first is an element of the ring.
fn blamed(reason: Reason, elements: usize, first: u16) -> usize
    ensures { result ≡ blame (number_of reason) elements first }
{
    match reason {
        Reason::WrongPeriod => 1,
        Reason::WrongCost => 0,
        Reason::WrongWay => 4,
        _ => {
            if first < 1 {
                return 2;
            }
            if first as usize > elements {
                return 2;
            }
            3
        }
    }
}

// Checks 7 to 9 and 26 of a row that the line says.
fn value_fault(
    line: &[u8],
    from: usize,
    rings: usize,
    elements: usize,
    row: Row,
) -> Result<(), Fault>
    requires { (from + length line.now ≤ max_text) × IsRowOf (part from line.now) row }
    ensures { Answers (value_checks rings elements (part from line.now)) (told result) (place result) }
{
    let first = row.first;
    if let Err(reason) = table::row_fault(elements, rings, in_ring(rings, row)) {
        return Err(Fault {
            wrong: Wrong::Table(reason),
            place: place_of(line, from, blamed(reason, elements, first)),
        });
    }
    Ok(())
}

// The line as row `i` of a table.
fn row_at(line: &[u8], from: usize, rings: usize, elements: usize, i: usize) -> Result<Row, Fault>
    requires { from + length line.now ≤ max_text }
    ensures { IsRowAt rings elements (part from line.now) i result }
{
    if i >= Table::ROWS {
        return Err(Fault {
            wrong: Wrong::Table(Reason::WrongRows),
            place: place_of(line, from, 0),
        });
    }
    let row = form_of(line, from, rings)?;
    value_fault(line, from, rings, elements, row)?;
    Ok(row)
}

// ---- all rows

// How many rows a text has, and whether one has a last field.
#[derive(Clone, Copy)]
pub struct Rows {
    pub rows: usize,
    pub labelled: bool,
}

// The rows of a text from `from` on; their numbers stand at the front of `numbers`.
fn read_rows(
    text: &[u8],
    from: usize,
    rings: usize,
    elements: usize,
    numbers: &mut [u16],
) -> Result<Rows, Fault>
    requires { (length text.now ≤ max_text) × Rest text.now from × (rings ≡ text_rings text.now)
        × (elements ≡ (text_table text.now).elements) × (row_numbers * max_rows ≤ length numbers.old) }
    ensures { AreRows text.now numbers.old numbers.new result }
{
    let mut labelled = false;
    // It goes from line to line, not over a range: where the next line starts, only this one tells.
    let mut i: usize = 0;
    let mut line = next_line(text, from);
    while line.start < line.end {
        let start = line.start;
        let end = line.end;
        let row = row_at(&text[start..end], start, rings, elements, i)?;
        reader::put_numbers(row, Table::ROW_NUMBERS * i, numbers);
        labelled |= has_field(&text[start..end], 4);
        i += 1;
        line = next_line(text, line.next);
    }
    Ok(Rows { rows: i, labelled })
}

// ---- the text

// The version that holds the labels.
fn version_for(rings: usize, labelled: bool) -> u64
    ensures { result ≡ version_for rings labelled }
{
    if rings == Table::RINGS {
        return Table::VERSION_1;
    }
    if labelled {
        return Table::VERSION_2;
    }
    Table::VERSION_1
}

// The heading and the rows of a text that is not too long; the rows' numbers stand at the front of `numbers`.
fn read_lines(text: &[u8], numbers: &mut [u16]) -> Result<Reading, Fault>
    requires { (length text.now ≤ max_text) × (row_numbers * max_rows ≤ length numbers.old) }
    ensures { AreLines text.now numbers.old numbers.new result }
{
    let first = next_line(text, 0);
    let start = first.start;
    let end = first.end;
    let heading = heading_of(&text[start..end], start)?;
    let elements = heading.elements as usize;
    let rings = heading.rings;
    let found = read_rows(text, first.next, rings, elements, numbers)?;
    if found.rows == 0 {
        return Err(Fault {
            wrong: Wrong::Table(Reason::WrongRows),
            place: text.len(),
        });
    }
    Ok(Reading {
        mark: [Table::MARK[0], Table::MARK[1], mark_byte(rings)],
        version: version_for(rings, found.labelled),
        table: Table {
            elements: elements,
            rows: found.rows,
        },
    })
}

// The numbers, written to the front of `out`.
fn put_front(numbers: &[u16], out: &mut [u16])
    requires { length numbers.now ≤ length out.old }
    ensures { out.new ≡ lent numbers.now out.old }
{
    out[..numbers.len()].copy_from_slice(numbers);
}

// A text has at most so many bytes.
pub const TEXT: usize = 65536;

// Numbers of all rows that a table can have.
const NUMBERS: usize = Table::ROW_NUMBERS * Table::ROWS;

// The reader: its checks, then 17. Fills the front of `out` with five numbers a row. The place of a fault is a place of the text.
pub fn read(text: &[u8], out: &mut [u16]) -> Result<Reading, Fault>
    ensures { TextRead text.now out.old out.new
        (told result) (place result) (mark_in result) (version_in result) (elements_in result) (rows_in result) }
{
    if text.len() > TEXT {
        return Err(Fault {
            wrong: Wrong::LongText,
            place: TEXT,
        });
    }
    let mut numbers = [0u16; NUMBERS];
    let found = read_lines(text, &mut numbers)?;
    let size = Table::ROW_NUMBERS * found.table.rows;
    if out.len() < size {
        return Err(Fault {
            wrong: Wrong::Table(Reason::ShortOutput),
            place: 0,
        });
    }
    put_front(&numbers[..size], out);
    Ok(found)
}
