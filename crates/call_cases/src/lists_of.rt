// The cases of lists of an element (#101):
//
//     element NAME: element room words / plan / elements (cost,period,first,second) ..
//     huge NAME: hyperperiod entries place row
//
// The first calls the maker with a plan of so many words; it is lent `room` numbers. The second reads a list file of so many entries, two
// a slot, of which the one at `place` has this row and all others row 0. For each is printed: number and place, the hyperperiod and the
// entry count, and of the first all of the lent numbers.
ghost use Rattle.std.specs.Prelude.{◌+◌, ◌*◌, ◌≤◌, ◌<◌};
ghost use Rattle.rules.specs.Bounds.{max_slots};

use crate::{KEPT, MOST, print_answer, print_number, print_numbers, room};
use cases::number_at;
use lists::{Entry, Head};
use maker::Making;
use table::Refusal;

// room for one entry more than a list can have
const LONGEST: usize = Head::BYTES + Head::ENTRY_BYTES * (Head::ENTRIES + 1);

const NUMBERS: usize = Head::ENTRY_NUMBERS * (Head::ENTRIES + 1);

fn print_list(rt: &impl Print, answer: &Result<Making, Refusal>) {
    print_answer(rt, answer);
    let made = answer.unwrap_or(Making {
        hyper: 0,
        entries: 0,
    });
    print_number(rt, made.hyper as u64);
    print_number(rt, made.entries as u64);
}

// ---- the reader

fn row_of(k: usize, place: usize, row: u64) -> u16
    ensures { result < 256 }
{
    if k == place { (row % 256) as u16 } else { 0 }
}

// The entries, as many as there are and there is room for.
fn fill(entries: usize, place: usize, row: u64, out: &mut [u8])
    requires { entries ≤ 2 * max_slots + 1 }
{
    for k in 0..entries {
        let at = Head::BYTES + Head::ENTRY_BYTES * k;
        if out.len() < at + Head::ENTRY_BYTES {
            return;
        }
        let entry = Entry {
            slot: (k / 2) as u16,
            row: row_of(k, place, row),
            way: (k % 2) as u16,
        };
        lists::put_bytes(entry, at, out);
    }
}

pub(crate) fn full_case(rt: &impl Print, given: &[u64]) {
    let mut file = [0u8; LONGEST];
    lists::put_head(1, (number_at(given, 0) % 65536) as u16, &mut file);
    let entries = room(given, 1, Head::ENTRIES + 1);
    fill(
        entries,
        number_at(given, 2) as usize,
        number_at(given, 3),
        &mut file,
    );
    let mut numbers = [0u16; NUMBERS];
    let size = Head::BYTES + Head::ENTRY_BYTES * entries;
    let r = lists::read(&file[..size], &mut numbers);
    print_list(
        rt,
        &r.map(|head| Making {
            hyper: head.hyper,
            entries: head.entries,
        }),
    );
}

// ---- the maker

fn make(rt: &impl Print, file: &[u8], plan: &[u64], element: u64, out: &mut [u16]) {
    let made = maker::make(file, plan, element, out);
    print_list(rt, &made);
    print_numbers(rt, out);
}

// Three numbers and the plan's words; more than there are where the words are more.
pub(crate) fn before_table(given: &[u64]) -> usize {
    let words = number_at(given, 2) as usize;
    if words > given.len() {
        return words;
    }
    3 + words
}

pub(crate) fn make_case(rt: &impl Print, file: &[u8], given: &[u64]) {
    if given.len() < 3 {
        return;
    }
    let mut out = [KEPT as u16; MOST];
    let size = room(given, 1, MOST);
    make(rt, file, &given[3..], number_at(given, 0), &mut out[..size]);
}
