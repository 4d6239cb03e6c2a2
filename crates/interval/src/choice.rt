// Which rows of an interval are rounded up: the greatest loads in the order of rows.
//
// Source: document 000, section 4.3 (GenerateLoad). Changed against it:
// - First the rows are rounded up in turn, each where all its sets have room. Where no set is then below its sum rounded down, these are
//   the greatest loads, and no network is needed: a row left out has a set that rows before it have filled. Else they are settled (crate
//   loads).
// - The bound by the interval's length is left out: a set's lag is at most the length, and so is the lag rounded up.
// - Of all loads that qualify these are the greatest, row 0's first, as document 02, #110, has them.
ghost use Rattle.std.specs.Prelude.{◌≡◌, true, ℕ, ◌+◌, ◌-◌, ◌<◌, ◌≤◌, length};
ghost use Rattle.numbers.specs.Lists.{at};
ghost use Rattle.numbers.specs.Word.{bit};
ghost use Rattle.rules.specs.Bounds.{max_elements};
ghost use Rattle.rules.specs.Interval.{Greatest};
ghost use Rattle.loads.specs.Loads.{part_most, digit, among, last, none, Spans, Parts, Summed, Qualified};
ghost use Rattle.loads.specs.State.{Ends};
ghost use Rattle.interval.specs.Taken.{Lifted, Lowered, Open, Uneven, Taken};

use loads::{NODES, Size};
use table::Table;

const ROWS: usize = Table::ROWS;

const SETS: usize = Table::ELEMENTS;

// ---- sums of parts

// Adds v to the sums from one up to another.
fn lift(sum: &mut [u32; SETS], from: usize, to: usize, v: u32)
    requires { (from ≤ to) × (to ≤ max_elements) × (length sum.old ≡ max_elements)
        × ((k : ℕ) → from ≤ k → k < to → at sum.old k + v ≤ part_most) }
    ensures { (length sum.new ≡ max_elements) × Lifted (at sum.old) (at sum.new) from to v }
{
    for k in from..to {
        sum[k] += v;
    }
}

// Adds the parts of these rows to the sums of their sets, which are 0.
fn add_parts(
    tail: &[u8; ROWS],
    head: &[u8; ROWS],
    part: &[u32; ROWS],
    rows: u64,
    sum: &mut [u32; SETS],
)
    requires { ((n : ℕ) × (K : ℕ) × (h : ℕ) × Spans n K (at tail.now) (last head.now) × ((i : ℕ) → i < n → 0 < at head.now i)
        × Parts n h (at part.now) × ((i : ℕ) → bit rows i ≡ true → i < n))
        × ((k : ℕ) → at sum.old k ≡ 0) × (length sum.old ≡ max_elements) }
    ensures { (length sum.new ≡ max_elements)
        × ((n K : ℕ) → Spans n K (at tail.now) (last head.now)
        → ((i : ℕ) → i < n → 0 < at head.now i) → ((i : ℕ) → bit rows i ≡ true → i < n)
        → Summed n K (at tail.now) (last head.now) (among rows (at part.now)) (at sum.new)) }
{
    let mut done: u64 = 0;
    while done != rows {
        let i = loads::pick(rows, done);
        let from = tail[i] as usize;
        let to = head[i] as usize;
        lift(sum, from, to, part[i]);
        done = done | (1u64 << i);
    }
}

// ---- rows in turn

// Whether none of the sets from one up to another is full.
fn has_room(left: &[u32; SETS], from: usize, to: usize) -> bool
    requires { to ≤ max_elements }
    ensures { Open (at left.now) from to result }
{
    for k in from..to {
        if left[k] == 0 {
            return false;
        }
    }
    true
}

// Takes h from what is left of the sets from one up to another.
// One function for this and `lift` would take a closure and one more definition: each is a line.
fn lower(left: &mut [u32; SETS], from: usize, to: usize, h: u32)
    requires { (from ≤ to) × (to ≤ max_elements) × (length left.old ≡ max_elements) }
    ensures { (length left.new ≡ max_elements)
        × Lowered (at left.old) (at left.new) from to h }
{
    for k in from..to {
        left[k] = left[k].saturating_sub(h);
    }
}

// Rounds up one after the other of the rows with a part, where its sets have room. `left` holds the sets' sums, and then what is left of
// them.
fn take_rows(tail: &[u8; ROWS], head: &[u8; ROWS], rows: u64, h: u32, left: &mut [u32; SETS]) -> u64
    requires { ((n : ℕ) × (K : ℕ) × (f : ℕ → ℕ) × Spans n K (at tail.now) (last head.now)
        × ((i : ℕ) → i < n → 0 < at head.now i) × Parts n h f × Uneven n f rows
        × Summed n K (at tail.now) (last head.now) f (at left.old)) × (length left.old ≡ max_elements) }
    ensures { (length left.new ≡ max_elements)
        × ((n K : ℕ) (f : ℕ → ℕ) → Spans n K (at tail.now) (last head.now)
        → ((i : ℕ) → i < n → 0 < at head.now i) → Parts n h f → Uneven n f rows
        → Summed n K (at tail.now) (last head.now) f (at left.old)
        → Taken n K n (at tail.now) (last head.now) h f result (at left.new)) }
{
    let mut top: u64 = 0;
    let mut done: u64 = 0;
    while done != rows {
        let i = loads::pick(rows, done);
        let from = tail[i] as usize;
        let to = head[i] as usize;
        if has_room(left, from, to) {
            lower(left, from, to, h);
            top = top | (1u64 << i);
        }
        done = done | (1u64 << i);
    }
    top
}

// Whether less than h is left of every set.
fn all_less(left: &[u32; SETS], sets: usize, h: u32) -> bool
    requires { sets ≤ max_elements }
    ensures { result ≡ true → (k : ℕ) → k < sets → at left.now k < h }
{
    // with `all` this takes twice the time
    for x in &left[..sets] {
        if *x >= h {
            return false;
        }
    }
    true
}

// ---- the choice

// The rows that are rounded up among these, which have a part above whole slots; the others are whole.
pub fn choose(
    tail: &[u8; ROWS],
    head: &[u8; ROWS],
    out: &[u64; NODES],
    into: &[u64; NODES],
    size: Size,
    part: &[u32; ROWS],
    rows: u64,
) -> u64
    requires { Ends size.rows size.sets tail.now head.now out.now into.now
        × Parts size.rows size.hyper (at part.now)
        × ((i : ℕ) → bit rows i ≡ true → (i < size.rows) × (0 < at part.now i)) }
    ensures { Greatest size.rows (Qualified size.rows size.sets (at tail.now) (last head.now)
        size.hyper (among rows (at part.now)) none) (digit result) }
{
    if rows == 0 {
        return 0;
    }
    let h = size.hyper as u32;
    let mut left = [0u32; SETS];
    add_parts(tail, head, part, rows, &mut left);
    let top = take_rows(tail, head, rows, h, &mut left);
    if all_less(&left, size.sets, h) {
        return top;
    }
    // the sums again: a copy made before would wait, in every interval, for sums that were only just written
    let mut sum = [0u32; SETS];
    add_parts(tail, head, part, rows, &mut sum);
    let start = loads::compare(out, into, &sum, size, rows, top);
    let mended = loads::mend(tail, head, out, into, &sum, size, start);
    loads::raise_rows(tail, head, out, into, &sum, size, mended)
}
