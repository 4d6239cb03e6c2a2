// Loads that are settled: rows rounded up or down as a circulation, mended where a set is too low, and raised row by row.
//
// Source: document 000, section 4.3 (GenerateLoad): rows and overlap sets as the arcs of a network, loads as a circulation in it. A row's
// total at an interval's end is its share there rounded down or up, and so is the sum of every set. Changed against it:
// - The shares' whole slots are given in any case. What is chosen is which rows are rounded up, one word; it depends on the interval's end
//   alone, by the parts of the shares above whole slots, in units of 1/h.
// - Nodes lie between the sets; a row is an arc over the consecutive sets it belongs to, a set an arc back.
// - Sets that are too low are mended by ways (`flow`). There is one as long as some set is too low, since the parts themselves are a
//   circulation within the bounds, only not a whole one.
// - Then each row in turn is rounded up where there is a way by the rows after it. So the loads are the greatest in the order of rows.
#![tactic(auto)]

mod flow;
mod nodes;

ghost use Rattle.std.specs.Prelude.{◌≡◌, ◌&&◌, not, ℕ, suc, ◌^◌, ◌<◌, ◌≤◌, eqb};
ghost use Rattle.std.specs.Int.Bits.{bit_and, bit_or, bit_xor};
ghost use Rattle.std.specs.Int.Count.{ones};
ghost use Rattle.numbers.specs.Finite.{only};
ghost use Rattle.numbers.specs.Lists.{at};
ghost use Rattle.numbers.specs.Word.{bit};
ghost use Rattle.rules.specs.Bounds.{max_elements, max_slots};
ghost use Rattle.rules.specs.Interval.{Greatest};
ghost use Rattle.loads.specs.Raised.{Raised};
ghost use Rattle.loads.specs.Loads.{part_most, digit, last, none, Qualified};
ghost use Rattle.loads.specs.Line.{line, carried};
ghost use Rattle.loads.specs.State.{Compared, over, Asked, State, Mended, Turn};

use flow::Arcs;
pub use flow::{NODES, pick};
pub use nodes::lay;
use table::Table;

const ROWS: usize = Table::ROWS;

const SETS: usize = Table::ELEMENTS;

// How many rows and sets there are, and h.
#[derive(Clone, Copy)]
pub struct Size {
    pub rows: usize,
    pub sets: usize,
    pub hyper: u64,
}

// ---- sets that are too low

// The word with q, where `on` says so.
pub fn mark(w: u64, q: usize, on: bool) -> u64
    requires { q < 64 }
    ensures { result ≡ bit_or w (only on (2 ^ q)) }
{
    if on {
        return w | (1u64 << q);
    }
    w
}

// The rows that are not whole and those that are rounded up; and of the sets, those that can take one more (by the node after them), those
// that can do with one less, and those that are too low.
#[derive(Clone, Copy)]
pub struct Sides {
    pub parted: u64,
    pub top: u64,
    pub more: u64,
    pub less: u64,
    pub low: u64,
}

// Compares the sets' sums with the rows that are rounded up. From set to set rows start and end: an exclusive or of both has the set's.
pub fn compare(
    out: &[u64; NODES],
    into: &[u64; NODES],
    sum: &[u32; SETS],
    size: Size,
    parted: u64,
    top: u64,
) -> Sides
    requires { (size.sets ≤ max_elements) × (size.hyper ≤ max_slots) × ((k : ℕ) → k < size.sets → at sum.now k ≤ part_most) }
    ensures { (result.parted ≡ parted) × (result.top ≡ top)
        × Compared size.sets size.hyper (λ k. ones (bit_and top (over (at out.now) (at into.now) (suc k))))
        (at sum.now) result.more result.less result.low }
{
    let h = size.hyper;
    let mut rows: u64 = 0;
    let mut more: u64 = 0;
    let mut less: u64 = 0;
    let mut low: u64 = 0;
    for k in 0..size.sets {
        rows = rows ^ out[k] ^ into[k];
        let used = h * (u64::count_ones(top & rows) as u64);
        let all = sum[k] as u64;
        more = mark(more, k + 1, used < all);
        less = mark(less, k, all < used);
        low = mark(low, k, used + h <= all);
    }
    Sides {
        parted,
        top,
        more,
        less,
        low,
    }
}

// Brings one more to sets that are too low, by ways, until none is.
pub fn mend(
    tail: &[u8; ROWS],
    head: &[u8; ROWS],
    out: &[u64; NODES],
    into: &[u64; NODES],
    sum: &[u32; SETS],
    size: Size,
    start: Sides,
) -> Sides
    requires { (f : ℕ → ℕ)
        × Asked size.rows size.sets size.hyper tail.now head.now out.now into.now sum.now f
        × State size.rows size.sets size.hyper tail.now head.now f start }
    ensures { (f : ℕ → ℕ)
        → Asked size.rows size.sets size.hyper tail.now head.now out.now into.now
        sum.now f
        → State size.rows size.sets size.hyper tail.now head.now f start
        → Mended size.rows size.sets size.hyper tail.now head.now f result }
{
    let mut s = start;
    let mut low = s.low;
    while low != 0 {
        let q = flow::pick(low, 0);
        let arcs = Arcs {
            up: s.parted ^ s.top,
            down: s.top,
            more: s.more ^ (1u64 << (q + 1)),
            less: s.less,
        };
        let way = flow::find_way(tail, head, out, into, arcs, q, q + 1);
        s = compare(out, into, sum, size, s.parted, s.top ^ way.rows);
        low = s.low;
    }
    s
}

// ---- rows that can still be rounded up

// The word without row i.
fn without(w: u64, i: usize) -> u64
    requires { i < 64 }
    ensures { (j : ℕ) → bit result j ≡ (bit w j && not (eqb j i)) }
{
    if (w >> i) % 2 == 1 {
        return w ^ (1u64 << i);
    }
    w
}

// The rows to toggle so that row i is rounded up and the rows before it stay as they are, row i among them; none where that can't be.
// `later` are the rows after i that are not whole.
fn seek(
    tail: &[u8; ROWS],
    head: &[u8; ROWS],
    out: &[u64; NODES],
    into: &[u64; NODES],
    s: Sides,
    later: u64,
    i: usize,
) -> u64
    requires { (n : ℕ) × (K : ℕ) × (h : ℕ) × (f : ℕ → ℕ) × Turn n K h tail.now head.now out.now into.now f s later i }
    ensures { (n K h : ℕ) (f : ℕ → ℕ)
        → Turn n K h tail.now head.now out.now into.now f s later i
        → Raised (line n K (at tail.now) (last head.now) h f) i
        (carried n (at tail.now) (last head.now) (digit s.top))
        (carried n (at tail.now) (last head.now) (digit (bit_xor s.top result))) }
{
    if ((s.parted ^ s.top) >> i) % 2 == 0 {
        return 0;
    }
    let down = later & s.top;
    let arcs = Arcs {
        up: later ^ down,
        down,
        more: s.more,
        less: s.less,
    };
    let from = head[i] as usize;
    let to = tail[i] as usize;
    let way = flow::find_way(tail, head, out, into, arcs, from, to);
    if !way.found {
        return 0;
    }
    way.rows | (1u64 << i)
}

// Rounds up one row after the other, where there is a way by the rows after it.
pub fn raise_rows(
    tail: &[u8; ROWS],
    head: &[u8; ROWS],
    out: &[u64; NODES],
    into: &[u64; NODES],
    sum: &[u32; SETS],
    size: Size,
    start: Sides,
) -> u64
    requires { (f : ℕ → ℕ)
        × Asked size.rows size.sets size.hyper tail.now head.now out.now into.now sum.now f
        × Mended size.rows size.sets size.hyper tail.now head.now f start }
    ensures { (f : ℕ → ℕ)
        → Asked size.rows size.sets size.hyper tail.now head.now out.now into.now
        sum.now f
        → Mended size.rows size.sets size.hyper tail.now head.now f start
        → Greatest size.rows
        (Qualified size.rows size.sets (at tail.now) (last head.now) size.hyper f none) (digit result) }
{
    let mut s = start;
    let mut later = s.parted;
    for i in 0..size.rows {
        later = without(later, i);
        let way = seek(tail, head, out, into, s, later, i);
        if way != 0 {
            s = compare(out, into, sum, size, s.parted, s.top ^ way);
        }
    }
    s.top
}
