// The rows present of a live table as a table file (#109), so that verdict and plan can be asked of them.
ghost use Rattle.std.specs.Prelude.{◌*◌, ◌≤◌, length};
ghost use Rattle.rules.specs.Bounds.{max_rows};
ghost use Rattle.rules.specs.TableFile.{row_numbers};
ghost use Rattle.rules.specs.Live.{Filed};
ghost use Rattle.table.specs.Refusal.{number, place};
ghost use Rattle.live.specs.State.{live_of};
ghost use Rattle.live.specs.Present.{PutPresent};

use crate::Live;
use table::{Reason, Refusal, Table};

// The numbers of the rows present, in the order of their places, at the front of `out`; how many rows they are.
fn put_present<'a>(
    cost: &'a [u16; Table::ROWS],
    period: &'a [u16; Table::ROWS],
    first: &'a [u8; Table::ROWS],
    second: &'a [u8; Table::ROWS],
    label: &'a [u16; Table::ROWS],
    out: &mut [u16],
) -> usize
    requires { row_numbers * max_rows ≤ length out.old }
    ensures { PutPresent cost.now period.now first.now second.now label.now
        out.old out.new result }
{
    let mut rows: usize = 0;
    for i in 0..Table::ROWS {
        if table::slots_at(period, i) != 0 {
            reader::put_numbers(
                table::row_at(cost, period, first, second, i, 0, label[i]),
                Table::ROW_NUMBERS * rows,
                out,
            );
            rows += 1;
        }
    }
    rows
}

// The rows present, written as a table file in the version that is told: 15, then the writer's refusals. 5 says that there are no rows.
pub fn write_file(live: &Live, version: u64, out: &mut [u8]) -> Result<(), Refusal>
    ensures { Filed version (live_of live.now) out.old out.new (number result) (place result) }
{
    if !live.is_in_order() {
        return Err(Reason::OffState.into());
    }
    let mut numbers = [0u16; Table::ROW_NUMBERS * Table::ROWS];
    let rows = put_present(
        &live.cost,
        &live.period,
        &live.first,
        &live.second,
        &live.label,
        &mut numbers,
    );
    let size = Table::ROW_NUMBERS * rows;
    writer::write_plain(
        version,
        live.elements as u64,
        rows as u64,
        &numbers[..size],
        out,
    )
}
