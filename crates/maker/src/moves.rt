// The moves of one element in the words of a plan (#101). A slot has at most one that comes to it and at most one that leaves it, since
// rows that share an end on the same side share a segment there; so a word and the rows that end at the element are all that is looked at.
ghost use Rattle.std.specs.Prelude.{◌≡◌, ◌≢◌, ◌++◌, ℕ, ◌+◌, ◌*◌, ◌≤◌, ◌<◌, T, length, take};
ghost use Rattle.numbers.specs.Decides.{Decides};
ghost use Rattle.numbers.specs.Lists.{at};
ghost use Rattle.numbers.specs.Word.{bit};
ghost use Rattle.rules.specs.Bounds.{max_rows, max_slots};
ghost use Rattle.rules.specs.Bus as bus;
ghost use Rattle.rules.specs.ElementList.{list_header, entry_size, entry_numbers, in_memory, in_file, BadWord};
ghost use Rattle.rules.specs.Calls.{lent};
ghost use Rattle.maker.specs.Words.{
  ending_at,
  Segmented,
  picked,
  AtMostOne,
  IsMove,
  Clear,
  moves_of,
  flat,
  PutMoves,
  LowestBad,
};

use lists::{Entry, Head};
use table::Table;

// Which moves of a plan are one element's: those of the first `hyper` words, received by the rows of `into` and sent by those of `from`.
#[derive(Clone, Copy)]
pub struct Picks {
    pub hyper: usize,
    pub into: u64,
    pub from: u64,
}

// The word of the rows that end at an element.
pub fn ending_at(rows: usize, ends: &[u8; Table::ROWS], element: usize) -> u64
    requires { rows ≤ max_rows }
    ensures { result ≡ ending_at rows (at ends.now) element }
{
    let mut word: u64 = 0;
    for i in 0..rows {
        if table::end_at(ends, i) == element {
            word |= 1u64 << i;
        }
    }
    word
}

// ---- words that no plan has

// Whether a word has a bit past the last row.
fn past_last(rows: usize, word: u64) -> bool
    requires { rows ≤ max_rows }
    ensures { Decides ((i : ℕ) × (rows ≤ i) × T (bit word i)) result }
{
    if rows == Table::ROWS {
        return false;
    }
    word >> rows != 0
}

// Whether a word has overlapping rows, or a bit past the last row. `used` are the segments of its rows so far.
fn is_bad(rows: usize, routes: &[u32; Table::ROWS], word: u64) -> bool
    requires { rows ≤ max_rows }
    ensures { (t : bus.Table) → t.rows ≡ rows → Segmented t routes.now → Decides (BadWord t word) result }
{
    if past_last(rows, word) {
        return true;
    }
    let mut used: u32 = 0;
    for i in 0..rows {
        if (word >> i) % 2 == 1 {
            let segments = routes[i];
            if used & segments != 0 {
                return true;
            }
            used |= segments;
        }
    }
    false
}

// The lowest of the first `hyper` slots whose word is bad; `hyper` where none is. A plan that is too short has no more words.
pub fn lowest_bad(rows: usize, routes: &[u32; Table::ROWS], plan: &[u64], hyper: usize) -> usize
    requires { rows ≤ max_rows }
    ensures { (t : bus.Table) → t.rows ≡ rows → Segmented t routes.now → LowestBad t plan.now hyper result }
{
    for slot in 0..hyper {
        if slot >= plan.len() {
            return hyper;
        }
        if is_bad(rows, routes, plan[slot]) {
            return slot;
        }
    }
    hyper
}

// ---- the moves

fn one(word: u64) -> usize
    requires { AtMostOne word }
    ensures { ((s d : ℕ) → result ≡ length (picked word s d)) × (result ≤ 1) }
{
    if word == 0 {
        return 0;
    }
    1
}

// The move of a word that has exactly one.
fn move_of(word: u64, slot: usize, way: u16) -> Entry
    requires { AtMostOne word × (word ≢ 0) × (slot < max_slots) }
    ensures { IsMove word slot way result }
{
    Entry {
        slot: slot as u16,
        row: sets::lowest_row(word) as u16,
        way,
    }
}

// The numbers of the move of a word that has at most one, after those of `n` moves; how many moves there are then.
fn put_number(word: u64, slot: usize, way: u16, out: &mut [u16], n: usize) -> usize
    requires { AtMostOne word × (slot < max_slots) × (entry_numbers * (n + length (picked word slot way)) ≤ length out.old) }
    ensures { PutMoves in_memory (picked word slot way) (entry_numbers * n) out.old out.new n result }
{
    if word == 0 {
        return n;
    }
    lists::put_numbers(move_of(word, slot, way), Head::ENTRY_NUMBERS * n, out);
    n + 1
}

// The same in bytes, after a list file's head.
fn put_byte(word: u64, slot: usize, way: u16, out: &mut [u8], n: usize) -> usize
    requires { AtMostOne word × (slot < max_slots) × (way < 256)
        × (list_header + entry_size * (n + length (picked word slot way)) ≤ length out.old) }
    ensures { PutMoves in_file (picked word slot way) (list_header + entry_size * n) out.old out.new n result }
{
    if word == 0 {
        return n;
    }
    lists::put_bytes(
        move_of(word, slot, way),
        Head::BYTES + Head::ENTRY_BYTES * n,
        out,
    );
    n + 1
}

impl Picks {
    // How many moves there are.
    pub fn count(self, plan: &[u64]) -> usize
        requires { Clear self plan.now }
        ensures { (result ≡ length (moves_of self plan.now)) × (result ≤ 2 * self.hyper) }
    {
        let mut n: usize = 0;
        for slot in 0..self.hyper {
            let word = plan[slot];
            n += one(word & self.into);
            n += one(word & self.from);
        }
        n
    }

    // The numbers of all moves, at the front of `out`.
    pub fn put_numbers(self, plan: &[u64], out: &mut [u16])
        requires { Clear self plan.now × (entry_numbers * length (moves_of self plan.now) ≤ length out.old) }
        ensures { out.new ≡ lent (flat in_memory (moves_of self plan.now)) out.old }
    {
        let mut n: usize = 0;
        for slot in 0..self.hyper {
            let word = plan[slot];
            n = put_number(word & self.into, slot, Entry::RECEIVE, out, n);
            n = put_number(word & self.from, slot, Entry::SEND, out, n);
        }
    }

    // The bytes of all moves, past the head. (A trait of both forms, with their widths and fronts, would be longer than these two loops.)
    pub fn put_bytes(self, plan: &[u64], out: &mut [u8])
        requires { Clear self plan.now × (list_header + entry_size * length (moves_of self plan.now) ≤ length out.old) }
        ensures { out.new ≡
            lent (take list_header out.old ++ flat in_file (moves_of self plan.now)) out.old }
    {
        let mut n: usize = 0;
        for slot in 0..self.hyper {
            let word = plan[slot];
            n = put_byte(word & self.into, slot, Entry::RECEIVE, out, n);
            n = put_byte(word & self.from, slot, Entry::SEND, out, n);
        }
    }
}
