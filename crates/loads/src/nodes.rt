// The nodes between sets, laid out once for a table's intervals: where each row starts and ends, and the rows of each node.
ghost use Rattle.std.specs.Prelude.{◌≡◌, ℕ, suc, ◌≤◌, ◌<◌, ltb, length, replicate};
ghost use Rattle.numbers.specs.Lists.{at};
ghost use Rattle.numbers.specs.Word.{bit};
ghost use Rattle.rules.specs.Bounds.{max_elements, max_rows};
ghost use Rattle.table.specs.Columns.{ByRow};
ghost use Rattle.loads.specs.Network.{nodes_most};
ghost use Rattle.loads.specs.Way.{ByNode};
ghost use Rattle.loads.specs.Ranges.{lowest_set, highest_set, Marked};
ghost use Rattle.loads.specs.NodesOf.{NodesOf};

use crate::flow;
use crate::flow::NODES;
use table::Table;

// ---- the sets of each row

// All of so many rows.
fn all_rows(rows: usize) -> u64
    requires { rows ≤ max_rows }
    ensures { (i : ℕ) → bit result i ≡ ltb i rows }
{
    if rows == Table::ROWS {
        return 0xffff_ffff_ffff_ffff;
    }
    numbers::stretch(0, rows)
}

// Writes v for each row in a word.
fn put(rows: u64, v: u8, to: &mut [u8; Table::ROWS])
    requires { length to.old ≡ max_rows }
    ensures { Marked rows v to.old to.new }
{
    let mut done: u64 = 0;
    while done != rows {
        let i = flow::pick(rows, done);
        to[i] = v;
        done = done | (1u64 << i);
    }
}

// Writes the node where each row starts, before its lowest set, to `tail`, and the rows that start at each node to `out`; both are 0.
// `left` are the rows that no set so far has.
fn put_starts(
    rows: usize,
    sets: usize,
    words: &[u64; Table::ROWS],
    tail: &mut [u8; Table::ROWS],
    out: &mut [u64; NODES],
)
    requires { (rows ≤ max_rows) × (sets ≤ max_elements) × (tail.old ≡ replicate max_rows 0) × (out.old ≡ replicate nodes_most 0) }
    ensures { ByRow rows (lowest_set sets words.now) tail.new
        × ByNode rows max_elements (at tail.new) (at out.new) }
{
    let mut left = all_rows(rows);
    for k in 0..sets {
        let here = left & words[k];
        put(here, k as u8, tail);
        out[k] = out[k] | here;
        left = left ^ here;
    }
    put(left, sets as u8, tail);
    out[sets] = out[sets] | left;
}

// Writes the node where each row ends, after its highest set, to `head`, and the rows that end at each node to `into`; both are 0. The sets
// from the last on. Not one function with `put_starts`: the order, the nodes and the node of rows in no set all differ.
fn put_stops(
    rows: usize,
    sets: usize,
    words: &[u64; Table::ROWS],
    head: &mut [u8; Table::ROWS],
    into: &mut [u64; NODES],
)
    requires { (rows ≤ max_rows) × (sets ≤ max_elements) × (head.old ≡ replicate max_rows 0)
        × (into.old ≡ replicate nodes_most 0) }
    ensures { ByRow rows (λ i. suc (highest_set sets words.now i)) head.new
        × ByNode rows max_elements (at head.new) (at into.new) }
{
    let mut left = all_rows(rows);
    for k in (0..sets).rev() {
        let here = left & words[k];
        put(here, k as u8 + 1, head);
        into[k + 1] = into[k + 1] | here;
        left = left ^ here;
    }
    put(left, 1, head);
    into[1] = into[1] | left;
}

// ---- all of it

// Lays this out in arrays that are 0. Lent, they are nowhere copied.
pub fn lay(
    rows: usize,
    sets: usize,
    words: &[u64; Table::ROWS],
    tail: &mut [u8; Table::ROWS],
    head: &mut [u8; Table::ROWS],
    out: &mut [u64; NODES],
    into: &mut [u64; NODES],
)
    requires { (rows ≤ max_rows) × (sets ≤ max_elements) × (tail.old ≡ replicate max_rows 0) × (head.old ≡ replicate max_rows 0)
        × (out.old ≡ replicate nodes_most 0) × (into.old ≡ replicate nodes_most 0) }
    ensures { NodesOf rows sets words.now tail.new head.new out.new into.new }
{
    put_starts(rows, sets, words, tail, out);
    put_stops(rows, sets, words, head, into);
}
