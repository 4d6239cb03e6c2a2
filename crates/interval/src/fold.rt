// Two rings on the nodes of one line (#112). One line has few enough sets for the words of the search, two may have twice as many. So the
// line is folded where the second ring's begins: word k has set k of each ring. Rows of different rings share no set, so loads qualify just
// when they qualify on each ring by itself (proofs/Unfolding), and the greatest of a product is the product of the greatest
// (proofs/Product): rows can be chosen once a ring, those of the other with part 0. With one ring nothing is folded.
ghost use Rattle.std.specs.Prelude.{◌≡◌, cond, ℕ, ◌≤◌, ◌<◌, length, take};
ghost use Rattle.numbers.specs.Lists.{at};
ghost use Rattle.numbers.specs.Word.{bit};
ghost use Rattle.rules.specs.Bounds.{max_rows};
ghost use Rattle.interval.specs.Folded.{upper_rows, low_sets, FoldedSets};

use table::Table;

const ROWS: usize = Table::ROWS;

// The rows that start past the bound: those of the second ring.
fn upper_rows(rows: usize, first: &[u8; ROWS], bound: usize) -> u64
    requires { rows ≤ max_rows }
    ensures { result ≡ upper_rows rows bound (at first.now) }
{
    let mut upper: u64 = 0;
    for i in 0..rows {
        upper = loads::mark(upper, i, bound < table::end_at(first, i));
    }
    upper
}

// How many sets come before the first with one of these rows.
fn low_sets(words: &[u64; ROWS], sets: usize, upper: u64) -> usize
    requires { (sets ≤ max_rows) × (length words.now ≡ max_rows) }
    ensures { result ≡ low_sets upper (take sets words.now) }
{
    for k in 0..sets {
        if words[k] & upper != 0 {
            return k;
        }
    }
    sets
}

// The rows of set k, none past the last set.
fn set_at(words: &[u64; ROWS], sets: usize, k: usize) -> u64
    requires { (sets ≤ max_rows) × (length words.now ≡ max_rows) }
    ensures { result ≡ at (take sets words.now) k }
{
    if k < sets {
        return words[k];
    }
    0
}

// The rows of `high` that are in `upper`, and those of `low` that are not.
fn merge(low: u64, high: u64, upper: u64) -> u64
    ensures { (i : ℕ) → bit result i ≡ cond (bit upper i) (bit high i) (bit low i) }
{
    low ^ ((low ^ high) & upper)
}

// The rows of the second ring, and how many sets the folded line has.
#[derive(Clone, Copy)]
pub struct Folded {
    pub upper: u64,
    pub sets: usize,
}

// Folds the list of sets at the front of `words`, where the rows of the second ring are those that start past the bound.
pub fn fold_sets(
    rows: usize,
    sets: usize,
    first: &[u8; ROWS],
    bound: usize,
    words: &mut [u64; ROWS],
) -> Folded
    requires { (rows ≤ max_rows) × (sets ≤ max_rows) × (length words.old ≡ max_rows) }
    ensures { FoldedSets rows bound sets (at first.now) words.old result words.new }
{
    let upper = upper_rows(rows, first, bound);
    if upper == 0 {
        return Folded { upper, sets };
    }
    let low = low_sets(words, sets, upper);
    let count = low.max(sets - low);
    for k in 0..count {
        let high = set_at(words, sets, low + k);
        words[k] = merge(words[k], high, upper);
    }
    Folded { upper, sets: count }
}
