// What a live table keeps beside its rows, worked out afresh from its 64 places (#109): the denominator, and the load sum of each segment
// over it. A free place holds zeros.
ghost use Rattle.std.specs.Prelude.{◌≡◌, List, ℕ, ◌≤◌, ◌<◌, max, length};
ghost use Rattle.numbers.specs.Lists.{at};
ghost use Rattle.rules.specs.Bounds.{max_elements, max_rows, max_slots};
ghost use Rattle.rules.specs.Live.{common_of, sum_over};
ghost use Rattle.table.specs.Rows.{single};
ghost use Rattle.table.specs.Columns.{ByRow};
ghost use Rattle.table.specs.Sound.{SoundRow};
ghost use Rattle.time.specs.Time.{Capped};
ghost use Rattle.live.specs.Tally.{column_live, column_places, Passing, segment_load};

use table::{Row, Table};

fn at_least_one(x: u16) -> u16
    ensures { result ≡ max 1 x }
{
    x.max(1)
}

// The periods, and 1 for a free place, which is no multiple of anything more.
fn counted(period: &[u16; Table::ROWS]) -> [u16; Table::ROWS]
    ensures { ByRow max_rows (λ i. max 1 (at period.now i)) result }
{
    period.map(at_least_one)
}

// The least common multiple of the periods present, or 0 where it is above 4096.
#[tactic(auto, using(crate::proofs::Sums::counted_periods, crate::proofs::Sums::counted_common))]
pub fn denominator_of(period: &[u16; Table::ROWS]) -> u64
    requires { (i : ℕ) → i < max_rows → at period.now i ≤ max_slots }
    ensures { Capped (common_of (at period.now)) result }
{
    let all = counted(period);
    time::hyperperiod_of(Table::ROWS, &all)
}

// What a row of the one ring, or a free place, adds to the load of segment s + 1, in units of 1 / d.
fn load_of(elements: usize, d: u64, row: Row, s: usize) -> u64
    requires { (elements ≤ max_elements) × (d ≤ max_slots) × (s < elements) × (0 < row.period → SoundRow (single elements 1 row) 0) }
    ensures { (result ≡ segment_load d (single elements 1 row) s 0) × (result ≤ max_slots) }
{
    if row.period == 0 {
        return 0;
    }
    let word = ring::segments(elements, row.first as usize, row.second as usize);
    if (word >> s) % 2 == 0 {
        return 0;
    }
    d / row.period as u64 * row.cost as u64
}

// The load of segment s + 1 from all the rows present, in units of 1 / d. Labels say nothing of it.
fn sum_of<'a>(
    elements: usize,
    d: u64,
    cost: &'a [u16; Table::ROWS],
    period: &'a [u16; Table::ROWS],
    first: &'a [u8; Table::ROWS],
    second: &'a [u8; Table::ROWS],
    s: usize,
) -> u64
    requires { (d ≤ max_slots) × (s < elements)
        × Passing (column_places elements cost.now period.now first.now second.now) }
    ensures { (label : List ℕ) → result
        ≡ sum_over d (column_live elements cost.now period.now first.now second.now label) s }
{
    let mut total: u64 = 0;
    for i in 0..Table::ROWS {
        let row = table::row_at(cost, period, first, second, i, 0, 0);
        total += load_of(elements, d, row, s);
    }
    total
}

// The load of every segment, segment s + 1 at s, in units of 1 / d; 0 past the last segment.
pub fn sums_of<'a>(
    elements: usize,
    d: u64,
    cost: &'a [u16; Table::ROWS],
    period: &'a [u16; Table::ROWS],
    first: &'a [u8; Table::ROWS],
    second: &'a [u8; Table::ROWS],
) -> [u64; Table::ELEMENTS]
    requires { (d ≤ max_slots) × Passing (column_places elements cost.now period.now first.now second.now) }
    ensures { (length result ≡ max_elements)
        × ((label : List ℕ) → at result
        ≡ sum_over d (column_live elements cost.now period.now first.now second.now label)) }
{
    let mut sums = [0u64; Table::ELEMENTS];
    for s in 0..elements {
        sums[s] = sum_of(elements, d, cost, period, first, second, s);
    }
    sums
}
