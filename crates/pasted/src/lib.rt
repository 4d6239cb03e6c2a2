// A table as it is given: what is refused of it before anything is looked for on its ring.
#![tactic(auto)]

ghost use Rattle.std.specs.Prelude.{◌≡◌, ◌&&◌, ℕ, ◌≤◌, ◌<◌};
ghost use Rattle.numbers.specs.Finite.{any, lowest};
ghost use Rattle.numbers.specs.Lists.{at};
ghost use Rattle.numbers.specs.Word.{bit};
ghost use Rattle.rules.specs.Bounds.{max_elements, max_rows};
ghost use Rattle.rules.specs.Bus.{pasted};
ghost use Rattle.rules.specs.TableFile.{file_table, file_labelled};
ghost use Rattle.rules.specs.Refusals.{Answers, pasted_checks, given_checks, one_ring_checks};
ghost use Rattle.table.specs.Columns.{table_of};
ghost use Rattle.table.specs.Refusal.{number, place};
ghost use Rattle.decoding.specs.Decoded.{Empty, DecodesInto, Decodes};
ghost use Rattle.pasted.specs.Alike.{alike, Rowed};

use decoding::Decoded;
use table::{Columns, Reason, Refusal, Table, no_columns};

// Rows `j` and `i` have the same second end, the same period and the same direction.
fn is_alike(table: &Columns, j: usize, i: usize) -> bool
    requires { (j < max_rows) × (i < max_rows) }
    ensures { result ≡ alike (at table.now.period) (at table.now.second) (at table.now.way) i j }
{
    if table::end_at(&table.second, j) != table::end_at(&table.second, i) {
        return false;
    }
    if table::slots_at(&table.period, j) != table::slots_at(&table.period, i) {
        return false;
    }
    table::end_at(&table.way, j) == table::end_at(&table.way, i)
}

// Some row of the word `rows` has row `i`'s second end, period and direction. Only these are gone through: most rows share their first end
// with few.
fn is_repeated(rows: u64, table: &Columns, i: usize) -> bool
    requires { i < max_rows }
    ensures { result ≡ any max_rows (λ j. bit rows j
        && alike (at table.now.period) (at table.now.second) (at table.now.way) i j) }
{
    let mut left = rows;
    while left != 0 {
        let j = sets::lowest_row(left);
        if is_alike(table, j, i) {
            return true;
        }
        left = left ^ (1u64 << j);
    }
    false
}

// The lowest row that has the ends, the period and the direction of an earlier one; the row count where there is none.
fn lowest_pasted(table: &Columns) -> usize
    requires { Rowed table.now }
    ensures { result ≡ lowest table.now.rows (pasted (table_of table.now)) }
{
    // for each element the word of the rows so far that start there
    let mut starts = [0u64; Table::ELEMENTS + 1];
    for i in 0..table.rows {
        let from = table::end_at(&table.first, i);
        let earlier = starts[from];
        if is_repeated(earlier, table, i) {
            return i;
        }
        starts[from] = earlier | (1u64 << i);
    }
    table.rows
}

// Check 18.
fn check_pasted(table: &Columns) -> Result<(), Refusal>
    requires { Rowed table.now }
    ensures { Answers (pasted_checks (table_of table.now)) (number result) (place result) }
{
    let row = lowest_pasted(table);
    if row < table.rows {
        return Err(Refusal::at(Reason::PastedRow, row));
    }
    Ok(())
}

// The first refusal of 1 to 9, 26 and 18, or the table of a file, written to columns that are 0, whatever they count.
pub fn given_into(file: &[u8], table: &mut Columns) -> Result<(), Refusal>
    requires { Empty table.old }
    ensures { DecodesInto (given_checks file.now) (file_table file.now) result table.new }
{
    decoding::decode_into(file, table)?;
    if let Err(refusal) = check_pasted(table) {
        *table = no_columns();
        return Err(refusal);
    }
    Ok(())
}

// The table of a file with its labels, or the first refusal of 1 to 9 and 18.
pub fn given(file: &[u8]) -> Result<Decoded, Refusal>
    ensures { Decodes (given_checks file.now) (file_labelled file.now) result }
{
    let found = decoding::decode(file)?;
    check_pasted(&found.columns)?;
    Ok(found)
}

// The same where a table of one ring alone is taken: another mark gets 2, after 1.
pub fn given_one_ring(file: &[u8]) -> Result<Decoded, Refusal>
    ensures { Decodes (one_ring_checks file.now (given_checks file.now))
        (file_labelled file.now) result }
{
    if decoding::has_other_mark(file) {
        return Err(Refusal::from(Reason::WrongMark));
    }
    given(file)
}
