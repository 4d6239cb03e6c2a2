// The writer: from numbers in memory to a file.
#![tactic(auto)]

mod memory;

ghost use Rattle.std.specs.Prelude.{◌≡◌, [], ◌∷◌, ◌++◌, ◌+◌, ◌*◌, ◌<◌, ◌≤◌, length, take};
ghost use Rattle.std.proofs.lemmas.List.Edits.{sets};
ghost use Rattle.numbers.specs.Codec.{write_low};
ghost use Rattle.rules.specs.Bounds.{max_rows, max_rings};
ghost use Rattle.rules.specs.TableFile.{header_size, last_size, row_with, row_size, row_numbers, last_of, memory_with, memory_labelled_with};
ghost use Rattle.rules.specs.TableFile.{table_mark, row_bytes, file_header};
ghost use Rattle.rules.specs.Calls.{lent, Written};
ghost use Rattle.table.specs.Refusal.{number, place};
ghost use Rattle.table.specs.Rows.{in_file, EndsFit};
ghost use Rattle.writer.specs.Written.{WrittenWith};

pub use memory::{check_version, row_of};
use table::{
    Reason, Refusal, Row, Table, is_no_mark, mark_byte, put_start, put16, rings_of, row_place,
};

// The six bytes that all rows have, from `at` on.
fn put_bytes(row: Row, at: usize, out: &mut [u8])
    requires { (at + row_with 0 ≤ length out.old) × (row.first < 256) × (row.second < 256) }
    ensures { out.new ≡ sets out.old at (in_file 1 0 row) }
{
    put16(row.cost, at, out);
    put16(row.period, at + 2, out);
    out[at + 4] = row.first as u8;
    out[at + 5] = row.second as u8;
}

// The byte of a direction.
fn put_way(way: usize, at: usize, out: &mut [u8])
    requires { (at + 1 ≤ length out.old) × (way < 256) }
    ensures { out.new ≡ sets out.old at (write_low 1 way) }
{
    out[at] = way as u8;
}

// What follows them: the direction, the label, or nothing.
fn put_last(rings: usize, version: u64, way: usize, label: u16, at: usize, out: &mut [u8])
    requires { (at + last_size rings version ≤ length out.old) × (way < 256) }
    ensures { out.new ≡ sets out.old at (write_low (last_size rings version) (last_of rings way label)) }
{
    if rings == Table::RINGS {
        put_way(way, at, out);
        return;
    }
    if version != Table::VERSION_2 {
        return;
    }
    put16(label, at, out);
}

// The bytes of a row, from `at` on.
fn put_row(rings: usize, version: u64, row: Row, at: usize, out: &mut [u8])
    requires { (at + row_size rings version ≤ length out.old) × (row.first < 256) × (row.second < 256) × (row.way < 256) }
    ensures { out.new ≡ sets out.old at (in_file rings (last_size rings version) row) }
{
    let way = row.way;
    let label = row.label;
    put_bytes(row, at, out);
    put_last(rings, version, way, label, at + Table::ROW_BYTES, out);
}

fn put_header(last: u8, version: u16, elements: u8, rows: u8, out: &mut [u8])
    requires { header_size ≤ length out.old }
    ensures { out.new ≡ sets out.old 0 (file_header (0x52 ∷ 0x42 ∷ last ∷ []) version elements rows) }
{
    put_start(last, version, out);
    out[Table::ELEMENTS_AT] = elements;
    out[Table::ROWS_AT] = rows;
}

// The bytes of all rows of a slice, past the header.
fn put_all_bytes(rings: usize, version: u64, numbers: &[u16], rows: usize, out: &mut [u8])
    requires { (rows ≤ max_rows) × (row_numbers * rows ≤ length numbers.now)
        × (header_size + row_size rings version * rows ≤ length out.old) × EndsFit (memory_with rings 0 rows numbers.now) }
    ensures { out.new ≡ lent
        (take header_size out.old
        ++ row_bytes (last_size rings version) (memory_labelled_with rings 0 rows numbers.now))
        out.old }
{
    for i in 0..rows {
        put_row(
            rings,
            version,
            row_of(rings, numbers, i),
            row_place(rings, version, i),
            out,
        );
    }
}

// The file's bytes of a slice whose mark is known.
fn write_with(
    rings: usize,
    version: u64,
    elements: u64,
    rows: u64,
    numbers: &[u16],
    out: &mut [u8],
) -> Result<(), Refusal>
    requires { rings ≤ max_rings }
    ensures { WrittenWith rings version elements rows numbers.now out.old out.new (number result)
        (place result) }
{
    check_version(rings, version, elements as usize, rows as usize, numbers)?;
    let count = rows as usize;
    if out.len() < row_place(rings, version, count) {
        return Err(Reason::ShortOutput.into());
    }
    put_header(
        mark_byte(rings),
        version as u16,
        elements as u8,
        rows as u8,
        out,
    );
    put_all_bytes(rings, version, numbers, count, out);
    Ok(())
}

// The writer: checks 2 to 9, 26, 20, then 17. Fills the front of `out` with the file's bytes, with the mark and in the version that it is
// told.
pub fn write(
    mark: &[u8],
    version: u64,
    elements: u64,
    rows: u64,
    numbers: &[u16],
    out: &mut [u8],
) -> Result<(), Refusal>
    ensures { Written mark.now version elements rows numbers.now out.old out.new
        (number result) (place result) }
{
    if is_no_mark(mark) {
        return Err(Reason::WrongMark.into());
    }
    write_with(rings_of(mark), version, elements, rows, numbers, out)
}

// The same with the mark of one ring.
pub fn write_plain(
    version: u64,
    elements: u64,
    rows: u64,
    numbers: &[u16],
    out: &mut [u8],
) -> Result<(), Refusal>
    ensures { Written table_mark version elements rows numbers.now out.old out.new
        (number result) (place result) }
{
    write_with(1, version, elements, rows, numbers, out)
}
