// A table in memory: a column for each of its rows' numbers. Below this crate a table is its columns, whatever file it came from. Labels
// stand beside them, for those who ask: planning needs none.
ghost use Rattle.std.specs.Prelude.{◌≡◌, ◌<◌};
ghost use Rattle.numbers.specs.Lists.{at};
ghost use Rattle.rules.specs.Bounds.{max_rows, max_rings};
ghost use Rattle.table.specs.Columns.{HasRow, no_columns};

use crate::{Row, Table, wide};

// Every column has 0 past the last row.
#[derive(Clone, Copy)]
pub struct Columns {
    pub elements: usize,
    pub rows: usize,
    pub rings: usize,
    pub cost: [u16; Table::ROWS],
    pub period: [u16; Table::ROWS],
    pub first: [u8; Table::ROWS],
    pub second: [u8; Table::ROWS],
    pub way: [u8; Table::ROWS],
}

// The columns of no table: what stands beside a refusal.
pub fn no_columns() -> Columns
    ensures { result ≡ no_columns }
{
    Columns {
        elements: 0,
        rows: 0,
        rings: 0,
        cost: [0; Table::ROWS],
        period: [0; Table::ROWS],
        first: [0; Table::ROWS],
        second: [0; Table::ROWS],
        way: [0; Table::ROWS],
    }
}

// Row `i` of a table in columns, with this direction and this label.
pub fn row_at<'a>(
    cost: &'a [u16; Table::ROWS],
    period: &'a [u16; Table::ROWS],
    first: &'a [u8; Table::ROWS],
    second: &'a [u8; Table::ROWS],
    i: usize,
    way: usize,
    label: u16,
) -> Row
    requires { i < max_rows }
    ensures { HasRow cost.now period.now first.now second.now i way label result }
{
    Row {
        cost: cost[i],
        period: period[i],
        first: wide(first[i]),
        second: wide(second[i]),
        way: way,
        label: label,
    }
}

fn byte_wide(x: u8) -> usize
    ensures { result ≡ x }
{
    x as usize
}

fn number_wide(x: u16) -> u64
    ensures { result ≡ x }
{
    x as u64
}

// An end of row `i`.
pub fn end_at(ends: &[u8; Table::ROWS], i: usize) -> usize
    requires { i < max_rows }
    ensures { result ≡ at ends.now i }
{
    byte_wide(ends[i])
}

// The direction of row `i`. With one ring it is not looked up: a loop over a plain table's rows then has no directions in it, and is
// compiled as if there were none.
pub fn way_at(way: &[u8; Table::ROWS], rings: usize, i: usize) -> usize
    requires { (i < max_rows) × (rings < max_rings → at way.now i ≡ 0) }
    ensures { result ≡ at way.now i }
{
    if rings < Table::RINGS {
        return 0;
    }
    end_at(way, i)
}

// The cost or the period of row `i`.
pub fn slots_at(column: &[u16; Table::ROWS], i: usize) -> u64
    requires { i < max_rows }
    ensures { result ≡ at column.now i }
{
    number_wide(column[i])
}
