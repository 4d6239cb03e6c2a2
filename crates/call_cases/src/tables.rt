// The cases of the reader and the writer:
//
//     read NAME: room / bytes                                  the reader on a file of these bytes; it is lent `room` numbers
//     version_1 NAME: room / bytes                             the reader of version 1 alone, likewise
//     write NAME: version elements rows room / numbers         the writer on these, with the mark RBT; it is lent `room` bytes
//     other NAME: mark version elements rows room / numbers    the same with the mark that has this byte for the T
//     list NAME: room / bytes                                  the reader of lists of an element, likewise
//     file NAME: 1 element hyperperiod room / numbers          the writer of such lists, likewise
//
// For each is printed: number and place, what the reader returned of the mark, the version, M and the row count, or of the element, the
// hyperperiod and the entry count, and then all of the lent memory.
ghost use Rattle.std.specs.Prelude.{◌+◌, ◌^◌, ◌≤◌, ◌<◌, length};

use crate::{KEPT, MOST, print_answer, print_number, print_numbers, room};
use cases::number_at;
use lists::Head;
use reader::Reading;
use table::{Refusal, Table};

// what is printed beside a refusal
const NO_TABLE: Reading = Reading {
    mark: [0; 3],
    version: 0,
    table: Table {
        elements: 0,
        rows: 0,
    },
};

const NO_LIST: Head = Head {
    element: 0,
    hyper: 0,
    entries: 0,
};

// How many numbers stand from place `k` on.
fn after(given: &[u64], k: usize) -> usize
    ensures { result ≤ 540 }
{
    given.len().saturating_sub(k).min(MOST)
}

// ---- the reader

fn print_table(rt: &impl Print, answer: Result<Reading, Refusal>) {
    print_answer(rt, &answer);
    let r = answer.unwrap_or(NO_TABLE);
    print_numbers(rt, &r.mark);
    print_number(rt, r.version);
    print_number(rt, r.table.elements as u64);
    print_number(rt, r.table.rows as u64);
}

fn print_list(rt: &impl Print, answer: Result<Head, Refusal>) {
    print_answer(rt, &answer);
    let head = answer.unwrap_or(NO_LIST);
    print_number(rt, head.element as u64);
    print_number(rt, head.hyper as u64);
    print_number(rt, head.entries as u64);
}

fn read_by(rt: &impl Print, letter: u8, file: &[u8], out: &mut [u16]) {
    match letter {
        b'r' => print_table(rt, reader::read(file, out)),
        b'v' => print_table(rt, reader::read_version_1(file, out)),
        _ => print_list(rt, lists::read(file, out)),
    }
}

fn read(rt: &impl Print, letter: u8, file: &[u8], out: &mut [u16]) {
    read_by(rt, letter, file, out);
    print_numbers(rt, out);
}

// What `of` makes of each number from place `first` on.
fn put_each<T: Drop, F: Fn(u64) -> T>(given: &[u64], first: usize, out: &mut [T], of: F)
    requires few { first + length out.old < 2 ^ 64 }
    requires callable { F.IsAlwaysCallable of }
{
    for (i, x) in out.iter_mut().enumerate() {
        *x = of(number_at(given, first + i));
    }
}

pub(crate) fn read_case(rt: &impl Print, letter: u8, given: &[u64]) {
    let mut file = [0u8; MOST];
    put_each(given, 1, &mut file, |x| (x % 256) as u8);
    let size = after(given, 1);
    let mut out = [KEPT as u16; MOST];
    let lent = room(given, 0, MOST);
    read(rt, letter, &file[..size], &mut out[..lent]);
}

// ---- the writer

fn mark_end(lead: &[u64]) -> u8 {
    if lead.len() == 0 {
        return b'T';
    }
    (number_at(lead, 0) % 256) as u8
}

fn write_table(mark: u8, given: &[u64], numbers: &[u16], out: &mut [u8]) -> Result<(), Refusal> {
    writer::write(
        &[b'R', b'B', mark],
        number_at(given, 0),
        number_at(given, 1),
        number_at(given, 2),
        numbers,
        out,
    )
}

fn write_by(
    letter: u8,
    lead: &[u64],
    given: &[u64],
    numbers: &[u16],
    out: &mut [u8],
) -> Result<(), Refusal> {
    if letter == b'f' {
        return lists::write(number_at(given, 1), number_at(given, 2), numbers, out);
    }
    write_table(mark_end(lead), given, numbers, out)
}

fn write(
    rt: &impl Print,
    letter: u8,
    lead: &[u64],
    given: &[u64],
    numbers: &[u16],
    out: &mut [u8],
) {
    print_answer(rt, &write_by(letter, lead, given, numbers, out));
    print_numbers(rt, out);
}

pub(crate) fn write_case(rt: &impl Print, letter: u8, lead: &[u64], given: &[u64]) {
    let mut numbers = [0u16; MOST];
    put_each(given, 4, &mut numbers, |x| (x % 65536) as u16);
    let size = after(given, 4);
    let mut out = [KEPT; MOST];
    let lent = room(given, 3, MOST);
    write(rt, letter, lead, given, &numbers[..size], &mut out[..lent]);
}
