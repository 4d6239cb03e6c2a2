// A second fill of an interval's slots (document 02, #114), to be followed by hand: no last end is kept for a slot, and slots are not
// gathered to stretches. Each row, in document 01's order, goes through the slots, and of every row that is there already it is asked
// whether the two overlap. The test is the line's (document 01, "From ring to line"): on the line two rows share a segment just when the
// first end of each is below the second end of the other.
ghost use Rattle.std.specs.Prelude.{◌≡◌, ℕ, ◌≤◌, ◌<◌, length};
ghost use Rattle.numbers.specs.Lists.{at};
ghost use Rattle.rules.specs.Bounds.{max_rows};
ghost use Rattle.rules.specs.Line.{meet};
ghost use Rattle.sets.specs.Chained.{ChainedRows};
ghost use Rattle.placing.specs.Filled.{FilledSlots};
ghost use Rattle.slots.specs.Plain.{is_open, RowPlaced, Cleared};

use sets::HEADS;
use table::Table;

// Rows `j` and `i` overlap: on the line the first end of each is below the second end of the other.
fn do_overlap<'a>(
    first: &'a [u8; Table::ROWS],
    second: &'a [u8; Table::ROWS],
    j: usize,
    i: usize,
) -> bool
    requires { (j < max_rows) × (i < max_rows) }
    ensures { result ≡ meet (at first.now) (at second.now) j i }
{
    table::end_at(first, j) < table::end_at(second, i)
        && table::end_at(first, i) < table::end_at(second, j)
}

// No row in a slot with this word overlaps row `i`.
fn is_free<'a>(
    first: &'a [u8; Table::ROWS],
    second: &'a [u8; Table::ROWS],
    i: usize,
    word: u64,
) -> bool
    requires { i < max_rows }
    ensures { result ≡ is_open (at first.now) (at second.now) i word }
{
    let mut asked: u64 = 0;
    while asked != word {
        let j = loads::pick(word, asked);
        if do_overlap(first, second, j, i) {
            return false;
        }
        asked = asked | (1u64 << j);
    }
    true
}

// Gives row `i` its slots: the earliest of so many that are free for it, up to its load.
fn place_row<'a>(
    first: &'a [u8; Table::ROWS],
    second: &'a [u8; Table::ROWS],
    i: usize,
    load: u64,
    slots: usize,
    words: &mut [u64],
)
    requires { (i < max_rows) × (slots ≤ length words.old) }
    ensures { RowPlaced (at first.now) (at second.now) i load slots
        words.old words.new }
{
    let row = 1u64 << i;
    let mut left = load;
    'slots: for s in 0..slots {
        if left == 0 {
            break 'slots;
        }
        if is_free(first, second, i, words[s]) {
            words[s] |= row;
            left -= 1;
        }
    }
}

// Clears the words of so many slots.
fn clear(slots: usize, words: &mut [u64])
    requires { slots ≤ length words.old }
    ensures { Cleared slots words.old words.new }
{
    words[..slots].fill(0);
}

// Writes the words of an interval of `slots` slots to the front of `words`, for rows on a line of the elements 1 to `top` that are chained
// so: what the fill by stretches writes.
pub fn fill_plain<'a>(
    first: &'a [u8; Table::ROWS],
    second: &'a [u8; Table::ROWS],
    head: &'a [u8; HEADS],
    next: &'a [u8; Table::ROWS],
    load: &'a [u16; Table::ROWS],
    top: usize,
    slots: usize,
    words: &mut [u64],
)
    requires { ((n : ℕ) × ChainedRows n (at first.now) (at second.now) top head.now next.now) × (slots ≤ length words.old) }
    ensures { (n : ℕ) → ChainedRows n (at first.now) (at second.now) top head.now
        next.now → FilledSlots n (at first.now) (at second.now) (at load.now) slots
        words.old words.new }
{
    clear(slots, words);
    for element in 1..top {
        let mut r = head[element];
        while r != 0 {
            let i = (r - 1) as usize;
            place_row(first, second, i, table::slots_at(load, i), slots, words);
            r = next[i];
        }
    }
}
