// From a file to a table in columns: the one place where the bytes of rows are read.
#![tactic(auto)]

ghost use Rattle.std.specs.Prelude.{◌≡◌, ◌≢◌, ◌+◌, ◌*◌, ◌≤◌, ◌<◌, length, replicate, IfOk};
ghost use Rattle.rules.specs.Bounds.{max_rows};
ghost use Rattle.rules.specs.TableFile.{table_mark, version_2, header_size, row_size, mark, version};
ghost use Rattle.rules.specs.TableFile.{file_rings, file_table, file_labelled};
ghost use Rattle.rules.specs.Refusals.{Answers, header_checks, row_checks, file_checks};
ghost use Rattle.table.specs.Columns.{Whole, HoldsLabels};
ghost use Rattle.table.specs.Refusal.{why, number, place};
ghost use Rattle.decoding.specs.Decoded.{StandsAt, DecodingTo, SameBeside, Empty, DecodesInto, Decodes};
ghost use Rattle.numbers.specs.Decides.{Decides};

use table::{
    Columns, Reason, Refusal, Row, Table, is_plain, is_strange, is_unknown, no_columns, read16,
    rings_of, row_bytes, row_fault, row_place, size_fault, version_of, way_at,
};

// Whether a file has a header with the mark of one ring and version 2.
pub fn is_labelled(file: &[u8]) -> bool
    ensures { Decides ((header_size ≤ length file.now) × (mark file.now ≡ table_mark)
        × (version file.now ≡ version_2)) result }
{
    if file.len() < Table::HEADER {
        return false;
    }
    if !is_plain(file) {
        return false;
    }
    if version_of(file) == Table::VERSION_2 {
        return true;
    }
    false
}

// Whether a file has a header with another mark than that of one ring: where one ring alone is taken, it gets 2.
pub fn has_other_mark(file: &[u8]) -> bool
    ensures { Decides ((header_size ≤ length file.now) × (mark file.now ≢ table_mark)) result }
{
    if file.len() < Table::HEADER {
        return false;
    }
    if is_plain(file) {
        return false;
    }
    true
}

// Checks 1 to 6.
fn header_fault(file: &[u8]) -> Result<(), Reason>
    ensures { Answers (header_checks file.now) (why result) 0 }
{
    if file.len() < Table::HEADER {
        return Err(Reason::ShortFile);
    }
    if is_strange(file) {
        return Err(Reason::WrongMark);
    }
    let rings = rings_of(file);
    let version = version_of(file);
    if is_unknown(rings, version) {
        return Err(Reason::WrongVersion);
    }
    let table = Table::of(file);
    size_fault(
        table.elements,
        table.rows,
        file.len(),
        Table::HEADER,
        row_bytes(rings, version),
    )
}

// The first byte of row `i`, in a file that is as long as it says.
fn row_in(file: &[u8], i: usize) -> usize
    requires { Whole file.now × (i < (file_table file.now).rows) }
    ensures { (result ≡ header_size + row_size (file_rings file.now) (version file.now) * i)
        × (result + row_size (file_rings file.now) (version file.now) ≤ length file.now) }
{
    row_place(rings_of(file), version_of(file), i)
}

// Writes the directions of the table in that file to `way`, which is 0: with two rings they stand after the six bytes that all rows have,
// with one all are 0.
fn put_ways(file: &[u8], way: &mut [u8; Table::ROWS])
    requires { Whole file.now × (way.old ≡ replicate max_rows 0) }
    ensures { HoldsLabels (file_table file.now).way way.new }
{
    if rings_of(file) != Table::RINGS {
        return;
    }
    for i in 0..Table::of(file).rows {
        way[i] = file[row_in(file, i) + Table::ROW_BYTES];
    }
}

fn wide(x: u8) -> u16
    ensures { result ≡ x }
{
    x as u16
}

// The row that stands at byte `at`, with this direction and no label.
fn row_from(file: &[u8], at: usize, way: usize) -> Row
    requires { at + 5 < length file.now }
    ensures { StandsAt file.now at way result }
{
    Row {
        cost: read16(file, at),
        period: read16(file, at + 2),
        first: wide(file[at + 4]),
        second: wide(file[at + 5]),
        way: way,
        label: 0,
    }
}

// Checks 7 to 9 and 26 of that table, whose directions are read. Where all pass, its other columns are written, which are 0: a row is
// checked as it is written, so that no column is gone through twice.
fn put_rows(file: &[u8], table: &mut Columns) -> Result<(), Refusal>
    requires { Whole file.now × DecodingTo (file_table file.now) 0 table.old × HoldsLabels (file_table file.now).way table.old.way }
    ensures answers { Answers (row_checks (file_table file.now)) (number result) (place result) }
    ensures rows { IfOk result (λ _. DecodingTo (file_table file.now) (file_table file.now).rows table.new) }
    ensures rest { SameBeside table.old table.new }
{
    let head = Table::of(file);
    let rings = rings_of(file);
    let version = version_of(file);
    for i in 0..head.rows {
        let at = row_place(rings, version, i);
        let row = row_from(file, at, way_at(&table.way, rings, i));
        if let Err(reason) = row_fault(head.elements, rings, row) {
            return Err(Refusal::at(reason, i));
        }
        // read before anything is written: to the compiler the columns could lie over the file
        let first = file[at + 4];
        let second = file[at + 5];
        table.cost[i] = row.cost;
        table.period[i] = row.period;
        table.first[i] = first;
        table.second[i] = second;
    }
    Ok(())
}

// Its labels: with one ring, version 2 has them after those six bytes; else all are 0.
fn labels_of(file: &[u8]) -> [u16; Table::ROWS]
    requires { Whole file.now }
    ensures { HoldsLabels (file_labelled file.now).label result }
{
    let mut labels = [0u16; Table::ROWS];
    if rings_of(file) == Table::RINGS {
        return labels;
    }
    if version_of(file) != Table::VERSION_2 {
        return labels;
    }
    for i in 0..Table::of(file).rows {
        labels[i] = read16(file, row_in(file, i) + Table::ROW_BYTES);
    }
    labels
}

// Checks 1 to 9 and 26. The table of a passed file is written to columns that are 0, whatever they count: lent, they are nowhere copied.
pub fn decode_into(file: &[u8], table: &mut Columns) -> Result<(), Refusal>
    requires { Empty table.old }
    ensures { DecodesInto (file_checks file.now) (file_table file.now) result table.new }
{
    table.elements = 0;
    table.rows = 0;
    table.rings = 0;
    header_fault(file)?;
    put_ways(file, &mut table.way);
    put_rows(file, table)?;
    let head = Table::of(file);
    table.elements = head.elements;
    table.rows = head.rows;
    table.rings = rings_of(file);
    Ok(())
}

// A file's table and its labels.
#[derive(Clone, Copy)]
pub struct Decoded {
    pub columns: Columns,
    pub labels: [u16; Table::ROWS],
}

// The same with labels, in one struct.
pub fn decode(file: &[u8]) -> Result<Decoded, Refusal>
    ensures { Decodes (file_checks file.now) (file_labelled file.now) result }
{
    let mut columns = no_columns();
    decode_into(file, &mut columns)?;
    Ok(Decoded {
        columns,
        labels: labels_of(file),
    })
}
