// Runs the cases that stand on standard input, a line each: the call, a name, a colon, and the numbers that the call is given. A case with
// a name only is a table for the verdict. The modules say what numbers a call's case has, and what is printed for it after its heading.
// Where rows stand as (cost,period,first,second), a name with a + in it is of a board with two rings, whose rows are
// (cost,period,first,second,direction). A name with a * in it is of a call with a relay (#113), whose number leads the others.
#![tactic(auto)]

mod lists_of;
mod meetings;
mod plans;
mod tables;
mod verdicts;

ghost use Rattle.std.specs.Prelude.{◌≤◌, length};

use cases::{find, number_at, table_file};
use table::{Refusal, Table};

// as many numbers as a case has at most, and as much as a call is lent
pub(crate) const MOST: usize = 540;

// what the lent memory holds before the call
pub(crate) const KEPT: u8 = 9;

// no more of the input is read
const INPUT: usize = 65536;

// room for the file of one row more than a table may have
const SIZE: usize = Table::HEADER + (Table::ROW_BYTES + Table::WAY_BYTES) * (Table::ROWS + 1);

// ---- what is printed; what can't be written is lost

pub(crate) fn print_word(rt: &impl Print, word: &[u8]) {
    let _ = rt.write_all(word);
}

// A space and a number.
pub(crate) fn print_number(rt: &impl Print, x: u64) {
    let _ = print!(rt; " {x}");
}

pub(crate) fn print_numbers<T: Copy + Into<u64>>(rt: &impl Print, numbers: &[T]) {
    for x in numbers {
        print_number(rt, (*x).into());
    }
}

pub(crate) fn print_answer<T>(rt: &impl Print, answer: &Result<T, Refusal>) {
    print_number(rt, u64::from(table::number(answer)));
    print_number(rt, u64::from(table::place(answer)));
}

// ---- a case's heading and numbers

pub(crate) fn byte_at(text: &[u8], k: usize) -> u8 {
    text.get(k).copied().unwrap_or(0)
}

// Calls are told apart by their first letter; a case that has a name only has none.
fn letter_of(heading: &[u8]) -> u8 {
    if heading.contains(&b' ') {
        byte_at(heading, 0)
    } else {
        0
    }
}

// How many numbers lead the others: that of the relay, or a mark's byte.
fn leading(heading: &[u8], given: &[u64]) -> usize
    ensures { result ≤ length given.now }
{
    if !given.is_empty() && (heading.contains(&b'*') || letter_of(heading) == b'o') {
        1
    } else {
        0
    }
}

// How much there is, or is lent, as the number at place `k` says.
pub(crate) fn room(given: &[u64], k: usize, most: usize) -> usize
    ensures { result ≤ most }
{
    (number_at(given, k) as usize).min(most)
}

// ---- calls on a table's file

// How many numbers stand before those of the table.
fn before_table(letter: u8, given: &[u64]) -> usize {
    match letter {
        0 => 0,
        b'c' => 1,
        b'm' => 2,
        b'e' => lists_of::before_table(given),
        _ => plans::BEFORE_TABLE,
    }
}

fn run_on(rt: &impl Print, heading: &[u8], relay: &[u64], file: &[u8], given: &[u64]) {
    match letter_of(heading) {
        0 => verdicts::answer(rt, verdicts::judge(relay, file)),
        b'c' => meetings::crowd_case(rt, file, given),
        b'm' => meetings::meet_case(rt, file, given),
        b'e' => lists_of::make_case(rt, file, given),
        _ => plans::run(rt, heading, relay, file, given),
    }
}

// The table's file is made here, for all calls.
fn run_on_table(rt: &impl Print, heading: &[u8], relay: &[u64], given: &[u64]) {
    let at = before_table(letter_of(heading), given);
    if at > given.len() {
        return;
    }
    let mut file = [0u8; SIZE];
    let size = table_file(heading.contains(&b'+'), &given[at..], &mut file);
    if size <= SIZE {
        run_on(rt, heading, relay, &file[..size], &given[..at]);
    }
}

// ---- a case

// The calls that take no table's file have first letters of their own.
fn call(rt: &impl Print, heading: &[u8], lead: &[u64], given: &[u64]) {
    if heading.contains(&b'*') {
        run_on_table(rt, heading, lead, given);
        return;
    }
    let letter = letter_of(heading);
    match letter {
        b'r' | b'v' | b'l' => tables::read_case(rt, letter, given),
        b'w' | b'f' | b'o' => tables::write_case(rt, letter, lead, given),
        b'h' => lists_of::full_case(rt, given),
        _ => run_on_table(rt, heading, lead, given),
    }
}

fn run(rt: &impl Print, heading: &[u8], given: &[u64]) {
    print_word(rt, heading);
    let lead = leading(heading, given);
    call(rt, heading, &given[..lead], &given[lead..]);
    print_word(rt, b"\n");
}

// A line of the input. It has a case if it has a colon, and no # before it.
fn one(rt: &impl Print, text: &[u8]) {
    let colon = find(text, 0, b':');
    if find(text, 0, b'#') <= colon {
        return;
    }
    let mut given = [0u64; MOST];
    let count = cases::numbers(&text[colon..], &mut given);
    if count <= MOST {
        run(rt, &text[..colon], &given[..count]);
    }
}

fn each(rt: &impl Print, text: &[u8]) {
    for line in text.split(|b| *b == b'\n') {
        one(rt, line);
    }
}

fn main(rt: HostRuntime) {
    print_word(&rt, b"empty");
    verdicts::answer(&rt, verdict::judge(b""));
    print_word(&rt, b"\n");
    let mut text = [0u8; INPUT];
    let n = streams::read(&rt, &mut text);
    each(&rt, &text[..n]);
}
