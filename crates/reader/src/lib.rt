// The reader: from a file to numbers in memory.
#![tactic(auto)]

ghost use Rattle.std.specs.Prelude.{◌≡◌, ◌+◌, ◌*◌, ◌≤◌, length};
ghost use Rattle.std.proofs.lemmas.List.Edits.{sets};
ghost use Rattle.rules.specs.Bounds.{max_rows};
ghost use Rattle.numbers.specs.Lists.{at};
ghost use Rattle.rules.specs.TableFile.{row_numbers, last_of, numbers};
ghost use Rattle.rules.specs.Calls.{lent, Read, ReadVersion1};
ghost use Rattle.table.specs.Rows.{in_memory};
ghost use Rattle.table.specs.Columns.{ByRow, column_labelled, no_labels};
ghost use Rattle.table.specs.Refusal.{number, place};
ghost use Rattle.reader.specs.Reading.{mark_in, version_in, elements_in, rows_in};

use table::{Columns, Reason, Refusal, Row, Table, last_of, mark_byte, row_at, version_of};

// The numbers of a row, from `at` on, its label the last.
pub fn put_numbers(row: Row, at: usize, out: &mut [u16])
    requires { at + row_numbers ≤ length out.old }
    ensures { out.new ≡ sets out.old at (in_memory 1 row) }
{
    out[at] = row.cost;
    out[at + 1] = row.period;
    out[at + 2] = row.first;
    out[at + 3] = row.second;
    out[at + 4] = row.label;
}

// The numbers of all rows of a table in columns, at the front of `out`: `last` has the rows' last numbers.
pub fn put_all_numbers(table: &Columns, last: &[u16; Table::ROWS], out: &mut [u16])
    requires { (table.now.rows ≤ max_rows) × (row_numbers * table.now.rows ≤ length out.old) }
    ensures { out.new ≡ lent
        (numbers (column_labelled 0 table.now.rows 1 table.now.cost table.now.period table.now.first table.now.second no_labels
        last.now))
        out.old }
{
    for i in 0..table.rows {
        put_numbers(
            row_at(
                &table.cost,
                &table.period,
                &table.first,
                &table.second,
                i,
                0,
                last[i],
            ),
            Table::ROW_NUMBERS * i,
            out,
        );
    }
}

fn last_number(rings: usize, way: u8, label: u16) -> u16
    ensures { result ≡ last_of rings way label }
{
    last_of(rings, way as u16, label)
}

// The rows' last numbers: their directions or their labels.
fn last_numbers(table: &Columns, labels: &[u16; Table::ROWS]) -> [u16; Table::ROWS]
    requires { table.now.rows ≤ max_rows }
    ensures { ByRow table.now.rows (λ i. last_of table.now.rings (at table.now.way i) (at labels.now i)) result }
{
    let mut last = [0u16; Table::ROWS];
    for i in 0..table.rows {
        last[i] = last_number(table.rings, table.way[i], labels[i]);
    }
    last
}

// What the reader returns beside the numbers that it fills in.
#[derive(Clone, Copy)]
pub struct Reading {
    pub mark: [u8; 3],
    pub version: u64,
    pub table: Table,
}

// The reader: checks 1 to 9 and 26, then 17. Takes both marks and both versions. Fills the front of `out` with five numbers a row.
pub fn read(file: &[u8], out: &mut [u16]) -> Result<Reading, Refusal>
    ensures { Read file.now out.old out.new
        (number result) (place result) (mark_in result) (version_in result) (elements_in result) (rows_in result) }
{
    let found = decoding::decode(file)?;
    let table = &found.columns;
    if out.len() < Table::ROW_NUMBERS * table.rows {
        return Err(Reason::ShortOutput.into());
    }
    let last = last_numbers(table, &found.labels);
    put_all_numbers(table, &last, out);
    Ok(Reading {
        mark: [Table::MARK[0], Table::MARK[1], mark_byte(table.rings)],
        version: version_of(file),
        table: Table {
            elements: table.elements,
            rows: table.rows,
        },
    })
}

// The reader of version 1 alone, and of one ring: it refuses version 2 with 3 and RB2 with 2.
pub fn read_version_1(file: &[u8], out: &mut [u16]) -> Result<Reading, Refusal>
    ensures { ReadVersion1 file.now out.old out.new
        (number result) (place result) (mark_in result) (version_in result) (elements_in result) (rows_in result) }
{
    if decoding::has_other_mark(file) {
        return Err(Reason::WrongMark.into());
    }
    if decoding::is_labelled(file) {
        return Err(Reason::WrongVersion.into());
    }
    read(file, out)
}
