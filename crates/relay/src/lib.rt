// A table split at a relay (#113): each row through it becomes two rows, to the relay and from there.
#![tactic(auto)]

ghost use Rattle.std.specs.Prelude.{◌≡◌, List, [], ◌∷◌, ◌++◌, ℕ, ◌+◌, ◌≤◌, ◌<◌, length};
ghost use Rattle.rules.specs.Bounds.{max_rows};
ghost use Rattle.rules.specs.Bus as bus;
ghost use Rattle.rules.specs.Refusals.{Answers, relay_checks};
ghost use Rattle.table.specs.Sound.{Sound};
ghost use Rattle.table.specs.Columns.{table_of, Holds};
ghost use Rattle.table.specs.Refusal.{why};
ghost use Rattle.ring.specs.Route.{Element};
ghost use Rattle.rules.specs.Relay.{of_rows, to_relay, from_relay, becomes};
ghost use Rattle.rules.specs.Relay as rules;
ghost use Rattle.relay.specs.Splitting.{numbers_of, Fits};
ghost use Rattle.relay.specs.Splits.{Splits};

use table::{Columns, Reason, Refusal, Row, Table};

// The first half of a row: to the relay.
fn to_relay(row: Row, relay: u16) -> Row
    ensures { numbers_of result ≡ to_relay relay (numbers_of row) }
{
    Row {
        second: relay,
        ..row
    }
}

// Its second half: from there.
fn from_relay(row: Row, relay: u16) -> Row
    ensures { numbers_of result ≡ from_relay relay (numbers_of row) }
{
    Row {
        first: relay,
        ..row
    }
}

// The columns of a table with no rows yet.
fn no_rows(elements: usize, rings: usize) -> Columns
    ensures { Holds (of_rows elements rings []) result }
{
    Columns {
        elements,
        rings,
        ..table::no_columns()
    }
}

// One more row.
fn put_row(columns: &mut Columns, row: Row)
    requires { (columns.old.rows < max_rows) × Fits row }
    ensures { (columns.new.rows ≡ columns.old.rows + 1) × ((M d : ℕ) (xs : List rules.Row) → Holds (of_rows M d xs) columns.old
        → Holds (of_rows M d (xs ++ (numbers_of row ∷ []))) columns.new) }
{
    let k = columns.rows;
    columns.cost[k] = row.cost;
    columns.period[k] = row.period;
    columns.first[k] = row.first as u8;
    columns.second[k] = row.second as u8;
    columns.way[k] = row.way as u8;
    columns.rows = k + 1;
}

// What a row becomes, which goes through the relay or doesn't.
fn put_parts(columns: &mut Columns, row: Row, relay: u16, goes: bool)
    requires { (columns.old.rows + length (becomes relay goes (numbers_of row)) ≤ max_rows) × Fits row × (relay < 256) }
    ensures { (M d : ℕ) (xs : List rules.Row) → Holds (of_rows M d xs) columns.old
        → Holds (of_rows M d (xs ++ becomes relay goes (numbers_of row))) columns.new }
{
    if goes {
        put_row(columns, to_relay(row, relay));
        put_row(columns, from_relay(row, relay));
    } else {
        put_row(columns, row);
    }
}

fn row_of(columns: &Columns, i: usize) -> Row
    requires { i < max_rows }
    ensures { numbers_of result ≡ rules.row_of (table_of columns.now) i }
{
    let way = table::end_at(&columns.way, i);
    table::row_at(
        &columns.cost,
        &columns.period,
        &columns.first,
        &columns.second,
        i,
        way,
        0,
    )
}

// Row `i` goes through the relay.
fn goes(columns: &Columns, i: usize, relay: usize) -> bool
    requires { Sound (table_of columns.now) × Element columns.now.elements relay × (i < columns.now.rows) }
    ensures { result ≡ bus.through (table_of columns.now) i relay }
{
    ring::goes_through(
        columns.elements,
        table::end_at(&columns.way, i),
        table::end_at(&columns.first, i),
        table::end_at(&columns.second, i),
        relay,
    )
}

// How many rows a row becomes, which goes through the relay or doesn't.
fn parts(goes: bool) -> usize
    ensures { ((relay : ℕ) (row : rules.Row) → result ≡ length (becomes relay goes row)) × (result ≤ 2) }
{
    if goes { 2 } else { 1 }
}

// How many rows a table has when it is split.
fn rows_split(given: &Columns, relay: usize) -> usize
    requires { Sound (table_of given.now) × Element given.now.elements relay }
    ensures { result ≡ (rules.split (table_of given.now) relay).rows }
{
    let mut rows: usize = 0;
    for i in 0..given.rows {
        rows += parts(goes(given, i, relay));
    }
    rows
}

// The table split, where its rows have room then.
fn split_at(given: &Columns, relay: usize) -> Columns
    requires { Sound (table_of given.now) × Element given.now.elements relay
        × ((rules.split (table_of given.now) relay).rows ≤ max_rows) }
    ensures { Holds (rules.split (table_of given.now) relay) result }
{
    let mut split = no_rows(given.elements, given.rings);
    for i in 0..given.rows {
        let row = row_of(given, i);
        let through = goes(given, i, relay);
        put_parts(&mut split, row, relay as u16, through);
    }
    split
}

// ---- a file's table

// Checks 27 and 28.
fn relay_fault(given: &Columns, relay: usize) -> Result<(), Reason>
    requires { Sound (table_of given.now) }
    ensures { Answers (relay_checks (table_of given.now) relay) (why result) 0 }
{
    if relay == 0 {
        return Err(Reason::WrongRelay);
    }
    if relay > given.elements {
        return Err(Reason::WrongRelay);
    }
    if rows_split(given, relay) > Table::ROWS {
        return Err(Reason::ManyRows);
    }
    Ok(())
}

// The table of a file split at a relay, or the first refusal of 1 to 9, 18, 27 and 28. One ring alone is taken.
pub fn split_file(file: &[u8], relay: usize) -> Result<Columns, Refusal>
    ensures { Splits file.now relay result }
{
    let found = pasted::given_one_ring(file)?;
    relay_fault(&found.columns, relay)?;
    Ok(split_at(&found.columns, relay))
}
