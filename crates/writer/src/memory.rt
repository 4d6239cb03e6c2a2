// A table in memory as a slice of numbers: its rows, and checks 3 to 9, 26 and 20 of it.
ghost use Rattle.std.specs.Prelude.{ℕ, ◌+◌, ◌*◌, ◌≤◌, length};
ghost use Rattle.rules.specs.Bounds.{max_rows};
ghost use Rattle.rules.specs.TableFile.{row_numbers, memory_with, memory_labelled_with};
ghost use Rattle.rules.specs.Refusals.{Answers, row_checks, memory_checks, label_checks, version_checks};
ghost use Rattle.table.specs.Refusal.{number, place};
ghost use Rattle.table.specs.Rows.{IsRow};

use table::{Reason, Refusal, Row, Table, is_unknown, label_in, row_fault, size_fault, way_in};

// Row `i` of a slice that holds it, in a table with so many rings.
pub fn row_of(rings: usize, numbers: &[u16], i: usize) -> Row
    requires { row_numbers * (i + 1) ≤ length numbers.now }
    ensures { (M n : ℕ) → IsRow (memory_labelled_with rings M n numbers.now) i result }
{
    let at = Table::ROW_NUMBERS * i;
    Row {
        cost: numbers[at],
        period: numbers[at + 1],
        first: numbers[at + 2],
        second: numbers[at + 3],
        way: way_in(rings, numbers[at + 4]),
        label: label_in(rings, numbers[at + 4]),
    }
}

// Checks 7 to 9 and 26, in a slice that holds the rows.
fn check_row_numbers(
    rings: usize,
    elements: usize,
    rows: usize,
    numbers: &[u16],
) -> Result<(), Refusal>
    requires { (rows ≤ max_rows) × (row_numbers * rows ≤ length numbers.now) }
    ensures { Answers (row_checks (memory_with rings elements rows numbers.now)) (number result) (place result) }
{
    for i in 0..rows {
        if let Err(reason) = row_fault(elements, rings, row_of(rings, numbers, i)) {
            return Err(Refusal::at(reason, i));
        }
    }
    Ok(())
}

// Checks 4 to 9 and 26 of a slice.
fn check_numbers(rings: usize, elements: usize, rows: usize, numbers: &[u16]) -> Result<(), Refusal>
    ensures { Answers (memory_checks rings elements rows numbers.now) (number result) (place result) }
{
    size_fault(elements, rows, numbers.len(), 0, Table::ROW_NUMBERS)?;
    check_row_numbers(rings, elements, rows, numbers)
}

// Check 20, in a slice that holds the rows: version 1 has no place for a label. Rows of two rings have none.
fn check_labels(rings: usize, version: u64, rows: usize, numbers: &[u16]) -> Result<(), Refusal>
    requires { (rows ≤ max_rows) × (row_numbers * rows ≤ length numbers.now) }
    ensures { (M : ℕ) → Answers (label_checks version (memory_labelled_with rings M rows numbers.now)) (number result)
        (place result) }
{
    if version != Table::VERSION_1 {
        return Ok(());
    }
    for i in 0..rows {
        if label_in(rings, numbers[Table::ROW_NUMBERS * i + 4]) != 0 {
            return Err(Refusal::at(Reason::LostLabel, i));
        }
    }
    Ok(())
}

// Checks 3 to 9, 26 and 20 of a slice that is to be written in this version, with so many rings.
pub fn check_version(
    rings: usize,
    version: u64,
    elements: usize,
    rows: usize,
    numbers: &[u16],
) -> Result<(), Refusal>
    ensures { Answers (version_checks rings version elements rows numbers.now) (number result) (place result) }
{
    if is_unknown(rings, version) {
        return Err(Reason::WrongVersion.into());
    }
    check_numbers(rings, elements, rows, numbers)?;
    check_labels(rings, version, rows, numbers)
}
