// What the program prints of a list file, and the list file that it writes for a table and an element (#101), in lent bytes.
//
// Each `put_` function writes lines from place `at` on, as far as there is room, and returns the place after them.
ghost use Rattle.std.specs.Prelude.{[], ◌∷◌, ◌+◌, ◌*◌, ◌≤◌, length};
ghost use Rattle.numbers.specs.Lists.{each};
ghost use Rattle.rules.specs.ElementList.{move, entry_numbers, memory_entry};
ghost use Rattle.rules.specs.Program.{list, entry, ListPrinted};
ghost use Rattle.decimal.specs.Puts.{limit, line_of, max_line, PutsLine, PutsLines};
ghost use Rattle.file_report.specs.ListWritten.{Rendered, ListWrittenFor};

use decimal::put_line;
use lists::Head;
use table::Table;

// The program's input: room for one entry more than a list can have, and a byte, so that a still longer file is refused for its length.
pub const INPUT: usize = Head::BYTES + Head::ENTRY_BYTES * (Head::ENTRIES + 1) + 1;

// Room for every report: 64 bytes for each line of the answer, the element, the hyperperiod and the entries.
pub const SIZE: usize = 64 * (3 + Head::ENTRIES);

const NUMBERS: usize = Head::ENTRY_NUMBERS * Head::ENTRIES;

// ---- lines

fn put_answer(number: u32, place: u32, out: &mut [u8]) -> usize
    ensures { PutsLine (list number place) out.old 0 out.new result }
{
    put_line(b"list", &[number as u64, place as u64], out, 0)
}

// A line of one number.
fn put_number(word: &[u8], x: u64, out: &mut [u8], at: usize) -> usize
    requires { (length word.now ≤ 8) × (at + max_line ≤ limit) }
    ensures { PutsLine (line_of word.now (x ∷ [])) out.old at out.new result }
{
    put_line(word, &[x], out, at)
}

fn put_entry(slot: u16, row: u16, way: u16, out: &mut [u8], at: usize) -> usize
    requires { at + max_line ≤ limit }
    ensures { PutsLine (entry (move slot row way)) out.old at out.new result }
{
    if way == 0 {
        return put_line(b"receive", &[slot as u64, row as u64], out, at);
    }
    put_line(b"send", &[slot as u64, row as u64], out, at)
}

// The first entries of a slice of numbers that holds them.
fn put_entries(numbers: &[u16], entries: usize, out: &mut [u8], at: usize) -> usize
    requires { (entry_numbers * entries ≤ length numbers.now) × (at + max_line * entries ≤ limit) }
    ensures { PutsLines (each entries (λ k. entry (memory_entry numbers.now k) ∷ [])) entries out.old at
        out.new result }
{
    let mut next = at;
    for k in 0..entries {
        let p = Head::ENTRY_NUMBERS * k;
        next = put_entry(numbers[p], numbers[p + 1], numbers[p + 2], out, next);
    }
    next
}

// ---- the two reports

// What the program prints for a list file, at the front of `out`; how many bytes it is. Of a refusal it is the first line only.
pub fn show(file: &[u8], out: &mut [u8]) -> usize
    ensures { Rendered (ListPrinted file.now) out.old out.new result }
{
    let mut numbers = [0u16; NUMBERS];
    let found = lists::read(file, &mut numbers);
    let first = put_answer(table::number(&found), table::place(&found), out);
    let Ok(head) = found else {
        return first;
    };
    let second = put_number(b"element", head.element as u64, out, first);
    let third = put_number(b"hyper", head.hyper as u64, out, second);
    put_entries(&numbers, head.entries, out, third)
}

// The list file of an element's moves in the plan of a table file, at the front of `out`; how many bytes it is. Of a refusal it is a line.
pub fn make(file: &[u8], element: u64, out: &mut [u8]) -> usize
    ensures { ListWrittenFor file.now element out.old out.new result }
{
    let mut plan = [0u64; Table::SLOTS];
    // what refuses the plan refuses the list too
    let _ = planner::whole_plan(file, &mut plan);
    let made = match maker::make_file(file, &plan, element, out) {
        Ok(made) => made,
        Err(refusal) => return put_answer(refusal.reason.number(), refusal.place, out),
    };
    Head::BYTES + Head::ENTRY_BYTES * made.entries
}
