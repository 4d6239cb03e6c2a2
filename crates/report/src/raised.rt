// What the program prints by the word `raise` (document 02, #111), in lent bytes: a line for each raised row, then the result's verdict.
//
// Each `put_` function writes lines from place `at` on, as far as there is room, and returns the place after them.
ghost use Rattle.std.specs.Prelude.{ℕ, ◌+◌, ◌*◌, ◌≤◌, ◌<◌};
ghost use Rattle.numbers.specs.Lists.{at};
ghost use Rattle.rules.specs.Bounds.{max_rows, max_slots};
ghost use Rattle.rules.specs.Program.{verdict};
ghost use Rattle.rules.specs.Raising.{raise};
ghost use Rattle.decimal.specs.Puts.{limit, max_line, PutsLine, PutsLines};
ghost use Rattle.table.specs.Refusal.{number, place};
ghost use Rattle.report.specs.RaisedLines.{Costs, raised_lines, RaiseRendered};

use crate::put_judged;
use decimal::put_line;
use table::{Refusal, Table};

// Room for every report: 64 bytes for each row and the verdict.
pub const SIZE: usize = 64 * (Table::ROWS + 1);

fn put_result<T>(answer: &Result<T, Refusal>, out: &mut [u8], at: usize) -> usize
    requires { at + max_line ≤ limit }
    ensures { PutsLine (verdict (number answer.now) (place answer.now)) out.old at out.new result }
{
    let number = table::number(answer);
    let place = table::place(answer);
    put_line(b"verdict", &[number as u64, place as u64], out, at)
}

fn put_raise(row: usize, old: u64, new: u64, out: &mut [u8], at: usize) -> usize
    requires { (row < max_rows) × (old ≤ max_slots) × (new ≤ max_slots) × (at + max_line * 2 ≤ limit) }
    ensures { PutsLine (raise row old new) out.old at out.new result }
{
    put_line(b"raise", &[row as u64, old, new], out, at)
}

// A line for each row whose cost grew.
fn put_raises(
    rows: usize,
    old: &[u16; Table::ROWS],
    new: &[u16; Table::ROWS],
    out: &mut [u8],
) -> usize
    requires { Costs rows (at old.now) (at new.now) }
    ensures { PutsLines (raised_lines rows (at old.now) (at new.now)) rows out.old 0
        out.new result }
{
    let mut next: usize = 0;
    for i in 0..rows {
        let was = table::slots_at(old, i);
        let is = table::slots_at(new, i);
        if was < is {
            next = put_raise(i, was, is, out, next);
        }
    }
    next
}

// What the program prints for a table file, at the front of `out`; how many bytes it is.
pub fn render(file: &[u8], out: &mut [u8]) -> usize
    ensures { RaiseRendered file.now out.old out.new result }
{
    let answer = raising::raised_table(file);
    let Ok(found) = answer else {
        return put_judged(&answer, out);
    };
    let mut raised = [0u8; Table::FILE_BYTES];
    // there is room for every file, so it isn't refused
    let _ = raising::raise(file, &mut raised);
    let result = verdict::judge(&raised[..file.len()]);
    let columns = &found.given.columns;
    let next = put_raises(columns.rows, &columns.cost, &found.cost, out);
    put_result(&result, out, next)
}
