// Raising light rows (document 02, #111): each light row's cost becomes the least that passes, and nothing else changes.
#![tactic(auto)]

ghost use Rattle.std.specs.Prelude.{◌≡◌, ◌≤◌, max};
ghost use Rattle.numbers.specs.Lists.{at};
ghost use Rattle.numbers.specs.Rounding.{up};
ghost use Rattle.rules.specs.Bounds.{max_slots};
ghost use Rattle.rules.specs.Raising.{Raised};
ghost use Rattle.table.specs.Columns.{ByRow};
ghost use Rattle.table.specs.Refusal.{number, place};
ghost use Rattle.verdict.specs.Weights.{Times};
ghost use Rattle.raising.specs.Raises.{RaisedBeside};

use decoding::Decoded;
use outline::Layout;
use table::{Columns, Refusal, Table, version_of};

// A row's cost, or period / L rounded up where that is more. Where all periods are equal, L is as long as they are, and 1 is never more.
fn raised_cost(cost: u64, period: u64, interval: u64) -> u64
    requires { (1 ≤ interval) × (interval ≤ max_slots) × (period ≤ max_slots) }
    ensures { result ≡ max cost (up period interval) }
{
    cost.max(period.div_ceil(interval))
}

// The costs of all rows, raised; 0 past the last row.
fn raised_costs<'a>(
    rows: usize,
    cost: &'a [u16; Table::ROWS],
    period: &'a [u16; Table::ROWS],
    interval: u64,
) -> [u16; Table::ROWS]
    requires { Times rows (at cost.now) (at period.now) × (1 ≤ interval) × (interval ≤ max_slots) }
    ensures { ByRow rows (λ i. max (at cost.now i) (up (at period.now i) interval)) result }
{
    let mut raised = [0u16; Table::ROWS];
    for i in 0..rows {
        raised[i] = raised_cost(
            table::slots_at(cost, i),
            table::slots_at(period, i),
            interval,
        ) as u16;
    }
    raised
}

// A file's table as it is given, and its rows' costs with the light ones raised.
#[derive(Clone, Copy)]
pub struct Raising {
    pub given: Decoded,
    pub cost: [u16; Table::ROWS],
}

// A file's table and its raised costs, or the first refusal of 1 to 9, 18, 10 and 11. A table of one ring alone is taken.
pub fn raised_table(file: &[u8]) -> Result<Raising, Refusal>
    ensures { RaisedBeside file.now result }
{
    let given = pasted::given_one_ring(file)?;
    let mut laid = Layout::none();
    outline::lay_into(&given.columns, &mut laid)?;
    let cost = raised_costs(
        given.columns.rows,
        &given.columns.cost,
        &given.columns.period,
        laid.time.interval,
    );
    Ok(Raising { given, cost })
}

// The raised table's file, written to the front of `out` in the version that it was given in; or a refusal of 1 to 9, 18, 10 and 11, then
// 17.
pub fn raise(file: &[u8], out: &mut [u8]) -> Result<(), Refusal>
    ensures { Raised file.now out.old out.new (number result) (place result) }
{
    let found = raised_table(file)?;
    let raised = Columns {
        cost: found.cost,
        ..found.given.columns
    };
    let mut numbers = [0u16; Table::ROW_NUMBERS * Table::ROWS];
    reader::put_all_numbers(&raised, &found.given.labels, &mut numbers);
    writer::write_plain(
        version_of(file),
        raised.elements as u64,
        raised.rows as u64,
        &numbers[..Table::ROW_NUMBERS * raised.rows],
        out,
    )
}
