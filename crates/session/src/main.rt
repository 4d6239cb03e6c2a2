// An operator's session between reels (#109): rows are added to and removed from a live table, one at a time. Reads lines from standard
// input and prints an answer for each:
//
//     new ELEMENTS                          number
//     add COST PERIOD FIRST SECOND LABEL    number, and the place taken
//     remove PLACE                          number
//     show                                  the denominator, then the rows present and the load sums of the segments, a line each
//     verdict                               number and place of the verdict on the rows present, in the order of their places
//
// The words are parted by spaces. Any other line, and one with a number that its place can't hold, is answered `no such line`. Until a live
// table is made it is all zeros, which breaks the rules: 15.
#![tactic(auto)]

ghost use Rattle.std.specs.Prelude.{◌≤◌, length};

use cases::{find, number_at};
use live::{Entry, Live};
use table::{Refusal, Table};

// as many numbers as a line has at most
const MOST: usize = 5;

const LARGEST: u64 = 65535;

// no more of the input is read
const INPUT: usize = 65536;

// room for the longest line that is printed: 12 letters, 6 numbers of up to 20 digits with a space each, and a newline
const LINE: usize = 12 + 6 * 21 + 1;

// ---- a line of the input

// Nothing but digits and spaces.
fn are_numbers(text: &[u8]) -> bool {
    text.iter().all(|b| *b == b' ' || b.is_ascii_digit())
}

// All of the numbers fit 16 bits.
fn are_small(given: &[u64]) -> bool {
    given.iter().all(|x| *x <= LARGEST)
}

fn small_at(given: &[u64], k: usize) -> u16 {
    (number_at(given, k) % (LARGEST + 1)) as u16
}

// ---- the answers; one that can't be written is lost

fn print_line(rt: &impl Print, word: &[u8], numbers: &[u64])
    requires { (length word.now ≤ 12) × (length numbers.now ≤ 6) }
{
    let mut line = [0u8; LINE];
    let size = decimal::put_line(word, numbers, &mut line, 0);
    let _ = rt.write_all(&line[..size]);
}

fn show(rt: &impl Print, live: &Live) {
    print_line(rt, b"denominator", &[live.denominator]);
    for i in 0..Table::ROWS {
        if live.period[i] != 0 {
            let row = [
                i as u64,
                u64::from(live.cost[i]),
                u64::from(live.period[i]),
                u64::from(live.first[i]),
                u64::from(live.second[i]),
                u64::from(live.label[i]),
            ];
            print_line(rt, b"row", &row);
        }
    }
    for (s, sum) in live.sums.iter().enumerate().take(live.elements) {
        print_line(rt, b"segment", &[s as u64 + 1, *sum]);
    }
}

// Number and place of a verdict, or of what is refused before it.
fn print_verdict<T>(rt: &impl Print, answer: &Result<T, Refusal>) {
    print_line(
        rt,
        b"verdict",
        &[
            u64::from(table::number(answer)),
            u64::from(table::place(answer)),
        ],
    );
}

// The verdict on a file of version 2 with this many rows, at the front of `bytes`.
fn judge(rt: &impl Print, bytes: &[u8], rows: usize) {
    if rows > Table::ROWS {
        return;
    }
    let size = table::row_place(1, Table::VERSION_2, rows);
    if size > bytes.len() {
        return;
    }
    print_verdict(rt, &verdict::judge(&bytes[..size]));
}

fn verdict(rt: &impl Print, live: &Live) {
    let mut bytes = [0u8; Table::FILE_BYTES];
    let written = live::write_file(live, Table::VERSION_2, &mut bytes);
    if written.is_err() {
        print_verdict(rt, &written);
        return;
    }
    let head = Table::of(&bytes);
    judge(rt, &bytes, head.rows);
}

// ---- the calls; where one is refused the live table stays as it was, but for a new one: nothing is there then

fn make(rt: &impl Print, given: &[u64]) -> Live {
    let made = Live::new(number_at(given, 0) as usize);
    print_line(rt, b"new", &[u64::from(table::number(&made))]);
    made.unwrap_or(Live::nothing())
}

fn add(rt: &impl Print, live: &mut Live, given: &[u64]) {
    let entry = Entry {
        cost: small_at(given, 0),
        period: small_at(given, 1),
        first: small_at(given, 2),
        second: small_at(given, 3),
        label: small_at(given, 4),
    };
    let added = live.add(entry);
    print_line(
        rt,
        b"add",
        &[
            u64::from(table::number(&added)),
            u64::from(added.unwrap_or(0)),
        ],
    );
}

fn remove(rt: &impl Print, live: &mut Live, given: &[u64]) {
    let removed = live.remove(number_at(given, 0) as usize);
    print_line(rt, b"remove", &[u64::from(table::number(&removed))]);
}

// ---- the session

// What a line with this word and these numbers asks for.
fn call(rt: &impl Print, live: &mut Live, word: &[u8], given: &[u64]) {
    match (word, given) {
        (b"new", [_]) => *live = make(rt, given),
        (b"add", [_, _, _, _, _]) if are_small(given) => add(rt, live, given),
        (b"remove", [_]) => remove(rt, live, given),
        (b"show", []) => show(rt, live),
        (b"verdict", []) => verdict(rt, live),
        _ => print_line(rt, b"no such line", &[]),
    }
}

fn one(rt: &impl Print, live: &mut Live, line: &[u8]) {
    let (word, text) = line.split_at(find(line, 0, b' '));
    let mut given = [0u64; MOST];
    let count = cases::numbers(text, &mut given);
    if count <= MOST && are_numbers(text) {
        call(rt, live, word, &given[..count]);
        return;
    }
    print_line(rt, b"no such line", &[]);
}

fn each(rt: &impl Print, text: &[u8]) {
    let mut live = Live::nothing();
    for line in text.split_inclusive(|b| *b == b'\n') {
        one(rt, &mut live, line.strip_suffix(b"\n").unwrap_or(line));
    }
}

fn main(rt: HostRuntime) {
    let mut text = [0u8; INPUT];
    let n = streams::read(&rt, &mut text);
    each(&rt, &text[..n]);
}
