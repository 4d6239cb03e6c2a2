// What the program of tables in text writes, in lent bytes: for a text the file of its table, for a file the text of its table, and of a
// refusal a line.
ghost use Rattle.std.specs.Prelude.{◌≤◌};
ghost use Rattle.rules.specs.Text.{text_of};
ghost use Rattle.decimal.specs.Puts.{Puts};
ghost use Rattle.grammar.specs.Reports.{fault, refusal, FileOf, TextOf, longest_text, Made};

use decimal::{put_bytes, put_line};
use table::{Table, rings_of, row_bytes};
use text_reader::{Spot, spot_of};

// The program's input: one byte more than a text may have, so that a longer one is refused for its length.
pub const INPUT: usize = text_reader::TEXT + 1;

// Room for everything that it writes: no text of a table has more bytes, and no file.
pub const SIZE: usize = 2048;

const NUMBERS: usize = Table::ROW_NUMBERS * Table::ROWS;

fn put_fault(number: u32, at: Spot, out: &mut [u8]) -> usize
    ensures { Puts (text_of (fault number at.line at.column)) out.old 0 out.new result × (result ≤ longest_text) }
{
    put_line(
        b"text",
        &[number as u64, at.line as u64, at.column as u64],
        out,
        0,
    )
}

fn put_refusal(number: u32, place: u32, out: &mut [u8]) -> usize
    ensures { Puts (text_of (refusal number place)) out.old 0 out.new result × (result ≤ longest_text) }
{
    put_line(b"file", &[number as u64, place as u64], out, 0)
}

// The file of a text's table, at the front of `out`; how many bytes it is.
pub fn make(text: &[u8], out: &mut [u8]) -> usize
    ensures { Made (FileOf text.now) out.old out.new result }
{
    let mut numbers = [0u16; NUMBERS];
    let found = match text_reader::read(text, &mut numbers) {
        Ok(found) => found,
        Err(fault) => return put_fault(fault.wrong.number(), spot_of(text, fault.place), out),
    };
    let mark = found.mark;
    let rows = found.table.rows;
    let count = Table::ROW_NUMBERS * rows;
    let mut file = [0u8; Table::FILE_BYTES];
    // there is room for every table, so it isn't refused
    let _ = writer::write(
        &mark,
        found.version,
        found.table.elements as u64,
        rows as u64,
        &numbers[..count],
        &mut file,
    );
    let size = Table::HEADER + row_bytes(rings_of(&mark), found.version) * rows;
    put_bytes(&file[..size], out, 0)
}

// The text of a file's table, at the front of `out`; how many bytes it is.
pub fn show(file: &[u8], out: &mut [u8]) -> usize
    ensures { Made (TextOf file.now) out.old out.new result }
{
    let mut numbers = [0u16; NUMBERS];
    let found = match reader::read(file, &mut numbers) {
        Ok(found) => found,
        Err(refusal) => return put_refusal(refusal.reason.number(), refusal.place, out),
    };
    let mark = found.mark;
    let count = Table::ROW_NUMBERS * found.table.rows;
    let mut text = [0u8; SIZE];
    let written = text_writer::write(
        &mark,
        found.version,
        found.table.elements as u64,
        found.table.rows as u64,
        &numbers[..count],
        &mut text,
    );
    // there is room for the text of every file, so it isn't refused
    let size = written.unwrap_or(0);
    put_bytes(&text[..size], out, 0)
}
