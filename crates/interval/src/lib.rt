// One planning interval of an admitted table, in pieces: from totals that keep step at its first slot to its loads and the totals after it
// (document 01, "Loads of one interval, and its slots"). Who plans intervals calls them in turn, and then fills the slots; that they make
// an interval is a law (proofs/Course, `advanced_of`).
#![tactic(auto)]

mod choice;
mod fold;

ghost use Rattle.std.specs.Prelude.{◌≡◌, true, ◌&&◌, ℕ, ◌+◌, ◌*◌, ◌/◌, ◌%◌, ◌≤◌, ◌<◌, eqb, length};
ghost use Rattle.numbers.specs.Lists.{at};
ghost use Rattle.numbers.specs.Word.{bit};
ghost use Rattle.rules.specs.Bounds.{max_rows, max_rings, max_slots};
ghost use Rattle.rules.specs.Interval.{Greatest};
ghost use Rattle.loads.specs.Loads.{share_most, digit, last, Parts};
ghost use Rattle.loads.specs.State.{Ends};
ghost use Rattle.interval.specs.Taken.{Uneven};
ghost use Rattle.interval.specs.Rings.{OnEach, ring_count};
ghost use Rattle.interval.specs.Interval.{Inverse, Given};

pub use fold::fold_sets;
use loads::{NODES, Size};
use table::Table;

// ---- shares

// What shares are multiplied by to be divided by h: 2^36 / h, rounded up. A plan has a share for each row and interval, and a product takes
// a fraction of a quotient's time.
pub fn inverse_of(h: u64) -> u64
    requires { (0 < h) × (h ≤ max_slots) }
    ensures { Inverse h result }
{
    ((1u64 << 36) + (h - 1)) / h
}

// The whole slots of a share.
fn whole_of(share: u64, inverse: u64) -> u64
    requires { ((h : ℕ) × (0 < h) × (h ≤ max_slots) × Inverse h inverse) × (share ≤ share_most) }
    ensures { (h : ℕ) → 0 < h → h ≤ max_slots → Inverse h inverse → result ≡ share / h }
{
    (share * inverse) >> 36
}

// Each row's share of so many slots: its whole slots, and the part above them. Gives the rows that have such a part.
pub fn part_shares(
    rate: &[u16; Table::ROWS],
    slots: u64,
    size: Size,
    inverse: u64,
    whole: &mut [u16; Table::ROWS],
    part: &mut [u32; Table::ROWS],
) -> u64
    requires { (size.rows ≤ max_rows) × (0 < size.hyper) × (size.hyper ≤ max_slots) × Inverse size.hyper inverse
        × ((i : ℕ) → i < size.rows → (at rate.now i * slots ≤ share_most) × (at rate.now i * slots / size.hyper ≤ max_slots))
        × (length whole.old ≡ max_rows) × (length part.old ≡ max_rows) }
    ensures { (length whole.new ≡ max_rows) × (length part.new ≡ max_rows)
        × ((i : ℕ) → i < size.rows → (at whole.new i ≡ at rate.now i * slots / size.hyper)
        × (at part.new i ≡ at rate.now i * slots % size.hyper))
        × Uneven size.rows (at part.new) result }
{
    let h = size.hyper;
    let mut parted: u64 = 0;
    for i in 0..size.rows {
        let share = table::slots_at(rate, i) * slots;
        let w = whole_of(share, inverse);
        let rest = share - w * h;
        whole[i] = w as u16;
        part[i] = rest as u32;
        parted = loads::mark(parted, i, 0 < rest);
    }
    parted
}

// ---- the rings

// On how many rings there are rows to choose from.
fn ring_count(upper: u64) -> u64
    ensures { result ≡ ring_count upper }
{
    if upper == 0 {
        return 1;
    }
    Table::RINGS as u64
}

// Those of the rows that are on ring d.
fn on_ring(d: u64, upper: u64, rows: u64) -> u64
    requires { d < max_rings }
    ensures { (i : ℕ) → bit result i ≡ (bit rows i && eqb (digit upper i) d) }
{
    let high = rows & upper;
    if d == 0 {
        return rows ^ high;
    }
    high
}

// The rows that are rounded up, on each ring by itself: `parted` are those with a part above whole slots, `upper` those of the second
// ring. `choose` is called in this one place and so compiled into it.
pub fn round_rows<'a>(
    upper: u64,
    tail: &'a [u8; Table::ROWS],
    head: &'a [u8; Table::ROWS],
    out: &'a [u64; NODES],
    into: &'a [u64; NODES],
    size: Size,
    part: &'a [u32; Table::ROWS],
    parted: u64,
) -> u64
    requires { Ends size.rows size.sets tail.now head.now out.now into.now
        × Parts size.rows size.hyper (at part.now) × Uneven size.rows (at part.now) parted }
    ensures { Greatest size.rows (OnEach size.rows size.sets (at tail.now) (last head.now)
        size.hyper upper (at part.now)) (digit result) }
{
    let rings = ring_count(upper);
    let mut rounded: u64 = 0;
    for d in 0..rings {
        let rows = on_ring(d, upper, parted);
        rounded = rounded | choice::choose(tail, head, out, into, size, part, rows);
    }
    rounded
}

// ---- the totals

// Gives each row its whole slots, which `load` has, and one more to those in the word `top`: `load` is then what a row gets beside those it
// has had.
pub fn give(top: u64, rows: usize, load: &mut [u16; Table::ROWS], totals: &mut [u64; Table::ROWS])
    requires { (rows ≤ max_rows) × ((i : ℕ) → i < rows → (at totals.old i ≤ at load.old i) × (at load.old i ≤ max_slots))
        × (length load.old ≡ max_rows) × (length totals.old ≡ max_rows) }
    ensures { (length load.new ≡ max_rows) × (length totals.new ≡ max_rows)
        × Given rows top (at load.old) (at totals.old) (at load.new) (at totals.new) }
{
    for i in 0..rows {
        let all = load[i] as u64 + (top >> i) % 2;
        load[i] = (all - totals[i]) as u16;
        totals[i] = all;
    }
}
