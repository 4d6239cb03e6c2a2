// Whether the places of a live table are as they should be (#109): each is free or holds a row that the bus allows, and no row stands there
// twice. Only comparisons are made, so any numbers may be handed in.
ghost use Rattle.std.specs.Prelude.{◌≡◌, ◌&&◌, ◌⊎◌, ℕ, ◌≤◌, ◌<◌, T, ltb};
ghost use Rattle.numbers.specs.Decides.{Decides};
ghost use Rattle.numbers.specs.Finite.{any};
ghost use Rattle.numbers.specs.Lists.{at};
ghost use Rattle.rules.specs.Bounds.{max_rows};
ghost use Rattle.rules.specs.Bus.{pasted};
ghost use Rattle.rules.specs.Refusals.{Answers, faults};
ghost use Rattle.rules.specs.Live.{Seated};
ghost use Rattle.table.specs.Rows.{single};
ghost use Rattle.live.specs.Tally.{column_live, column_places};
ghost use Rattle.live.specs.Seats.{Zeros, Seat, equal};

use table::{Row, Table};

// A free place holds zeros, the label too.
fn is_free(row: Row) -> bool
    ensures { Decides (Zeros row) result }
{
    row.cost == 0 && row.period == 0 && row.first == 0 && row.second == 0 && row.label == 0
}

fn is_seat(elements: usize, row: Row) -> bool
    ensures { Decides (Zeros row ⊎ Answers (faults (single elements 1 row) 0) 0 0) result }
{
    if is_free(row) {
        return true;
    }
    table::row_fault(elements, 1, row).is_ok()
}

// Each place is free, or holds a row that passes 7 to 9. A live table has one ring, so 26 never applies.
fn are_seats<'a>(
    elements: usize,
    cost: &'a [u16; Table::ROWS],
    period: &'a [u16; Table::ROWS],
    first: &'a [u8; Table::ROWS],
    second: &'a [u8; Table::ROWS],
    label: &'a [u16; Table::ROWS],
) -> bool
    ensures { Decides ((i : ℕ) → i < max_rows
        → Seat
        (column_live elements cost.now period.now first.now second.now label.now) i)
        result }
{
    (0..Table::ROWS).all(|i| {
        is_seat(
            elements,
            table::row_at(cost, period, first, second, i, 0, label[i]),
        )
    })
}

// Place `j` has the row's ends and period.
fn is_equal<'a>(
    period: &'a [u16; Table::ROWS],
    first: &'a [u8; Table::ROWS],
    second: &'a [u8; Table::ROWS],
    j: usize,
    row: Row,
) -> bool
    requires { j < max_rows }
    ensures { result ≡ equal (at period.now) (at first.now) (at second.now) row j }
{
    table::end_at(first, j) == row.first as usize
        && table::end_at(second, j) == row.second as usize
        && table::slots_at(period, j) == row.period as u64
}

// One of the first `count` places has the row's ends and period.
pub fn has_row<'a>(
    count: usize,
    period: &'a [u16; Table::ROWS],
    first: &'a [u8; Table::ROWS],
    second: &'a [u8; Table::ROWS],
    row: Row,
) -> bool
    requires { count ≤ max_rows }
    ensures { result ≡ any count (equal (at period.now) (at first.now) (at second.now) row) }
{
    (0..count).any(|j| is_equal(period, first, second, j, row))
}

// Place `i` holds a row that stands in an earlier place too.
fn is_repeated<'a>(
    cost: &'a [u16; Table::ROWS],
    period: &'a [u16; Table::ROWS],
    first: &'a [u8; Table::ROWS],
    second: &'a [u8; Table::ROWS],
    i: usize,
) -> bool
    requires { i < max_rows }
    ensures { (elements : ℕ) → result ≡ (ltb 0 (at period.now i)
        && pasted
        (column_places elements cost.now period.now first.now second.now) i) }
{
    let row = table::row_at(cost, period, first, second, i, 0, 0);
    row.period != 0 && has_row(i, period, first, second, row)
}

// No row has the ends and the period of another.
fn are_single<'a>(
    cost: &'a [u16; Table::ROWS],
    period: &'a [u16; Table::ROWS],
    first: &'a [u8; Table::ROWS],
    second: &'a [u8; Table::ROWS],
) -> bool
    ensures { (elements : ℕ) → Decides ((i : ℕ) → i < max_rows → T (ltb 0 (at period.now i))
        → T (pasted
        (column_places elements cost.now period.now first.now second.now) i) → ⊥)
        result }
{
    (0..Table::ROWS).all(|i| !is_repeated(cost, period, first, second, i))
}

// The ring and the rows keep the live table's rules.
pub fn are_seated<'a>(
    elements: usize,
    cost: &'a [u16; Table::ROWS],
    period: &'a [u16; Table::ROWS],
    first: &'a [u8; Table::ROWS],
    second: &'a [u8; Table::ROWS],
    label: &'a [u16; Table::ROWS],
) -> bool
    ensures { Decides
        (Seated
        (column_live elements cost.now period.now first.now second.now label.now))
        result }
{
    (2..=Table::ELEMENTS).contains(&elements)
        && are_seats(elements, cost, period, first, second, label)
        && are_single(cost, period, first, second)
}
