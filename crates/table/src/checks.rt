// The checks that the reader and the writer share: limits, a table's size, a row.
ghost use Rattle.std.specs.Prelude.{◌+◌, ◌*◌, ◌≤◌};
ghost use Rattle.rules.specs.TableFile.{header_size};
ghost use Rattle.rules.specs.Refusals.{Answers, size_checks, faults};
ghost use Rattle.table.specs.Refusal.{why};
ghost use Rattle.table.specs.Rows.{longest_row, single, sized};
ghost use Rattle.numbers.specs.Decides.{Decides};

use crate::{Reason, Row, Table};

fn within(x: usize, low: usize, high: usize) -> bool
    ensures { Decides ((low ≤ x) × (x ≤ high)) result }
{
    if x < low {
        return false;
    }
    x <= high
}

// Checks 4 to 6, of a table whose file or slice has `size` places: it is to have `front`, and `each` a row.
pub fn size_fault(
    elements: usize,
    rows: usize,
    size: usize,
    front: usize,
    each: usize,
) -> Result<(), Reason>
    requires { (front ≤ header_size) × (each ≤ longest_row) }
    ensures { Answers (size_checks (sized elements rows) size (front + each * rows)) (why result) 0 }
{
    if !within(elements, 2, Table::ELEMENTS) {
        return Err(Reason::WrongElements);
    }
    if !within(rows, 1, Table::ROWS) {
        return Err(Reason::WrongRows);
    }
    if size != front + each * rows {
        return Err(Reason::WrongLength);
    }
    Ok(())
}

// Checks 7 to 9 and 26 of one row.
pub fn row_fault(elements: usize, rings: usize, row: Row) -> Result<(), Reason>
    ensures { Answers (faults (single elements rings row) 0) (why result) 0 }
{
    if !within(row.first as usize, 1, elements) {
        return Err(Reason::WrongEnds);
    }
    if !within(row.second as usize, 1, elements) {
        return Err(Reason::WrongEnds);
    }
    if row.first == row.second {
        return Err(Reason::WrongEnds);
    }
    if !within(row.period as usize, 1, Table::SLOTS) {
        return Err(Reason::WrongPeriod);
    }
    if !within(row.cost as usize, 1, row.period as usize) {
        return Err(Reason::WrongCost);
    }
    if row.way >= rings {
        return Err(Reason::WrongWay);
    }
    Ok(())
}
