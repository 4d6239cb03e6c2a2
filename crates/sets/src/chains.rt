// The rows of a table chained by the element at which they start: the order in which an interval's slots are given out (document 01, "Loads
// of one interval, and its slots"), by ascending first end on the line and equal ones by row number, with no sorted copy.
ghost use Rattle.std.specs.Prelude.{◌≡◌, ℕ, ◌≤◌, ◌<◌, replicate};
ghost use Rattle.numbers.specs.Lists.{at};
ghost use Rattle.rules.specs.Bounds.{max_rows};
ghost use Rattle.sets.specs.Chained.{all_heads, Chained};

use crate::Sets;
use table::Table;

// A head for each element of the line.
pub const HEADS: usize = Sets::LINE;

// Chains the rows by their first ends, in arrays that are 0: `head[e]` leads to the lowest row that starts at element e, `next[i]` from row
// i to the next one that starts where it does. Each is 1 + the row, or 0 where there is none.
pub fn chain(
    first: &[u8; Table::ROWS],
    rows: usize,
    head: &mut [u8; HEADS],
    next: &mut [u8; Table::ROWS],
)
    requires { (rows ≤ max_rows) × ((i : ℕ) → i < rows → at first.now i < all_heads)
        × (head.old ≡ replicate all_heads 0) × (next.old ≡ replicate max_rows 0) }
    ensures { Chained rows (at first.now) head.new next.new }
{
    for i in (0..rows).rev() {
        let element = table::end_at(first, i);
        next[i] = head[element];
        head[element] = (i + 1) as u8;
    }
}
