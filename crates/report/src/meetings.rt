// What the program prints by the words `meet` and `set` (#102), in lent bytes: number and place, then each row of a set, each segment.
//
// Each `put_` function writes lines from place `at` on, as far as there is room, and returns the place after them.
ghost use Rattle.std.specs.Prelude.{◌+◌, ◌*◌, ◌≤◌, length};
ghost use Rattle.rules.specs.Bounds.{max_elements, max_rows};
ghost use Rattle.rules.specs.Program.{shared, row_lines, segment_lines, MeetingPrinted, CrowdPrinted};
ghost use Rattle.decimal.specs.Puts.{limit, max_line, PutsLine, PutsLines};
ghost use Rattle.table.specs.Refusal.{number, place};
ghost use Rattle.report.specs.MeetLines.{numbered, member_lines, Rendered};

use crate::put_value;
use decimal::put_line;
use meeting::Crowd;
use table::{Refusal, Table};

// Room for every report: 64 bytes for each line of the answer, the rows and the segments.
pub const SIZE: usize = 64 * (1 + Table::ROWS + Table::ELEMENTS);

fn put_answer<T>(answer: &Result<T, Refusal>, out: &mut [u8]) -> usize
    ensures { PutsLine (shared (number answer.now) (place answer.now)) out.old 0 out.new result }
{
    let number = table::number(answer);
    let place = table::place(answer);
    put_line(b"shared", &[number as u64, place as u64], out, 0)
}

// A line for each of the first `bits` bits of a word that is set, numbered from `first` on.
fn put_members(name: &[u8], word: u64, first: u64, bits: u64, out: &mut [u8], at: usize) -> usize
    requires { (length name.now ≤ 8) × (first ≤ 1) × (bits ≤ 64) × (at + max_line * bits ≤ limit) }
    ensures { PutsLines (member_lines (λ k. numbered name.now (first + k)) bits word) bits out.old at
        out.new result }
{
    let mut next = at;
    for k in 0..bits {
        if (word >> k) % 2 == 1 {
            next = put_value(name, first + k, out, next);
        }
    }
    next
}

fn put_rows(word: u64, out: &mut [u8], at: usize) -> usize
    requires { at + max_line * max_rows ≤ limit }
    ensures { PutsLines (row_lines word) max_rows out.old at out.new result }
{
    put_members(b"row", word, 0, Table::ROWS as u64, out, at)
}

fn put_segments(word: u32, out: &mut [u8], at: usize) -> usize
    requires { at + max_line * max_elements ≤ limit }
    ensures { PutsLines (segment_lines word) max_elements out.old at out.new result }
{
    put_members(b"segment", word as u64, 1, Table::ELEMENTS as u64, out, at)
}

// What the program prints for rows `i` and `j` of a table file, at the front of `out`; how many bytes it is.
pub fn rows(file: &[u8], i: usize, j: usize, out: &mut [u8]) -> usize
    ensures { Rendered (MeetingPrinted file.now i j) out.old out.new result }
{
    let found = meeting::meet(file, i, j);
    let next = put_answer(&found, out);
    let word = found.unwrap_or(0);
    put_segments(word, out, next)
}

// of a refusal
const NONE: Crowd = Crowd {
    rows: 0,
    segments: 0,
};

// The same for set number `k`.
pub fn set(file: &[u8], k: usize, out: &mut [u8]) -> usize
    ensures { Rendered (CrowdPrinted file.now k) out.old out.new result }
{
    let found = meeting::of_set(file, k);
    let next = put_answer(&found, out);
    let crowd = found.unwrap_or(NONE);
    let listed = put_rows(crowd.rows, out, next);
    put_segments(crowd.segments, out, listed)
}
