// The overlap sets of rows on a line, listed by one walk up the line (document 01, "From ring to line").
//
// An overlap set is the rows across its least second end (proofs/Overlap), and the rows across a second end are an overlap set just when
// some row has started since the second end before it. So a word and a bool find the sets, in their order, and nothing is sorted.
#![tactic(auto)]

mod chains;

ghost use Rattle.std.specs.Prelude.{◌≡◌, ◌≢◌, true, ◌<◌};
ghost use Rattle.numbers.specs.Word.{bit};
ghost use Rattle.numbers.specs.Lists.{at};
ghost use Rattle.sets.specs.Sets.{OnLine, SetWords};

pub use chains::{HEADS, chain};
use table::Table;

// The words of the overlap sets, by ascending least second end; those from `count` on are 0.
#[derive(Clone, Copy)]
pub struct Sets {
    pub count: usize,
    pub words: [u64; Table::ROWS],
}

impl Sets {
    // A line's elements are 1 to M + 1, two rings have two lines, and an array by element has a place 0 too.
    pub const LINE: usize = Table::RINGS * (Table::ELEMENTS + 1) + 1;
}

// The overlap sets of the first `rows` rows, which run from first to second on a line whose last element is `top`.
pub fn list_sets<'a>(
    first: &'a [u8; Table::ROWS],
    second: &'a [u8; Table::ROWS],
    rows: usize,
    top: usize,
) -> Sets
    requires { OnLine rows (at first.now) (at second.now) top }
    ensures { SetWords rows (at first.now) (at second.now) result.count result.words }
{
    // for each element of the line the word of the rows that start there, and of those that end there
    let mut starts = [0u64; Sets::LINE];
    let mut ends = [0u64; Sets::LINE];
    for i in 0..rows {
        let from = table::end_at(first, i);
        let to = table::end_at(second, i);
        starts[from] |= 1 << i;
        ends[to] |= 1 << i;
    }
    let mut words = [0u64; Table::ROWS];
    let mut count: usize = 0;
    let mut started = false;
    let mut across: u64 = 0;
    for e in 0..top + 1 {
        let starting = starts[e];
        let ending = ends[e];
        if ending != 0 {
            if started {
                words[count] = across;
                count += 1;
            }
            started = false;
        }
        if starting != 0 {
            started = true;
        }
        across = (across ^ ending) | starting;
    }
    Sets { count, words }
}

// A row of a set that has one: the lowest.
pub fn lowest_row(word: u64) -> usize
    requires { word ≢ 0 }
    ensures { (result < 64) × (bit word result ≡ true) }
{
    u64::trailing_zeros(word) as usize
}
