// Whether a planner's totals keep step with the shares, and the standings (document 01, "The planner").
//
// A share is rate × slot, in units of 1 / h. A total n is a share x rounded down or up exactly if x < (n + 1) × h and n × h < x + h, so
// nothing is divided. Any totals may be handed in: rows come first, and each row's total is held to the slot before any product is
// taken; then no product and no set's sum can be too large.
ghost use Rattle.std.specs.Prelude.{◌≡◌, ℕ, ◌*◌, ◌<◌, ◌≤◌};
ghost use Rattle.numbers.specs.Finite.{sum_in};
ghost use Rattle.numbers.specs.Word.{bit};
ghost use Rattle.numbers.specs.Lists.{at};
ghost use Rattle.numbers.specs.Rounding.{Rounded};
ghost use Rattle.numbers.specs.Decides.{Decides};
ghost use Rattle.rules.specs.Bounds.{max_rows, max_slots};
ghost use Rattle.planner.specs.Step.{Bounded, RowsKeep, SetsKeep, KeepsStep, SpareClear, Stands};

use table::Table;

// `total` is `share` / `hyper`, rounded down or up.
fn is_rounded(total: u64, share: u64, hyper: u64) -> bool
    requires { (total ≤ max_rows * max_slots) × (share ≤ max_rows * (max_slots * max_slots)) × (0 < hyper) × (hyper ≤ max_slots) }
    ensures { Decides (Rounded total share hyper) result }
{
    share < (total + 1) * hyper && total * hyper < share + hyper
}

// A row's total is its share rounded down or up. No row has had more slots than have passed, so a total above the slot is not.
fn row_keeps_step(hyper: u64, slot: u64, rate: u64, total: u64) -> bool
    requires { (0 < hyper) × (hyper ≤ max_slots) × (slot ≤ hyper) × (rate ≤ hyper) }
    ensures { Decides (Rounded total (rate * slot) hyper) result }
{
    if total > slot {
        return false;
    }
    is_rounded(total, rate * slot, hyper)
}

// Each row's total is its share rounded down or up.
fn rows_keep_step(
    rows: usize,
    hyper: u64,
    slot: u64,
    rate: &[u16; Table::ROWS],
    totals: &[u64; Table::ROWS],
) -> bool
    requires { Bounded rows hyper slot (at rate.now) }
    ensures { Decides (RowsKeep rows hyper slot (at rate.now) (at totals.now)) result }
{
    for i in 0..rows {
        if !row_keeps_step(hyper, slot, table::slots_at(rate, i), totals[i]) {
            return false;
        }
    }
    true
}

// The rates and the totals of the rows of a set, summed.
#[derive(Clone, Copy)]
struct Sums {
    rate: u64,
    total: u64,
}

// The sums over the rows of the set whose word is `word`. Only these are gone through.
fn sums_in(rows: usize, word: u64, rate: &[u16; Table::ROWS], totals: &[u64; Table::ROWS]) -> Sums
    requires { (rows ≤ max_rows) × ((i : ℕ) → i < rows → (at rate.now i ≤ max_slots) × (at totals.now i ≤ max_slots)) }
    ensures { (result.rate ≡ sum_in rows (bit word) (at rate.now)) × (result.rate ≤ max_rows * max_slots)
        × (result.total ≡ sum_in rows (bit word) (at totals.now)) × (result.total ≤ max_rows * max_slots) }
{
    let mut rates: u64 = 0;
    let mut all: u64 = 0;
    let mut left = word;
    while left != 0 {
        let i = sets::lowest_row(left);
        if i < rows {
            rates += table::slots_at(rate, i);
            all += totals[i];
        }
        left = left ^ (1u64 << i);
    }
    Sums {
        rate: rates,
        total: all,
    }
}

// Each listed set's summed total is its summed share rounded down or up. Each row keeps step already, which keeps the sums small.
fn sets_keep_step(
    rows: usize,
    hyper: u64,
    slot: u64,
    rate: &[u16; Table::ROWS],
    sets: usize,
    words: &[u64; Table::ROWS],
    totals: &[u64; Table::ROWS],
) -> bool
    requires { Bounded rows hyper slot (at rate.now) × (sets ≤ max_rows)
        × RowsKeep rows hyper slot (at rate.now) (at totals.now) }
    ensures { Decides
        (SetsKeep rows hyper slot (at rate.now) sets (at words.now) (at totals.now)) result }
{
    for k in 0..sets {
        let sums = sums_in(rows, words[k], rate, totals);
        if !is_rounded(sums.total, sums.rate * slot, hyper) {
            return false;
        }
    }
    true
}

// The totals of all rows, and of the sets listed by their words, keep step with the shares.
pub fn keeps_step<'a>(
    rows: usize,
    hyper: u64,
    slot: u64,
    rate: &'a [u16; Table::ROWS],
    sets: usize,
    words: &'a [u64; Table::ROWS],
    totals: &'a [u64; Table::ROWS],
) -> bool
    requires { Bounded rows hyper slot (at rate.now) × (sets ≤ max_rows) }
    ensures { Decides
        (KeepsStep rows hyper slot (at rate.now) sets (at words.now) (at totals.now)) result }
{
    if !rows_keep_step(rows, hyper, slot, rate, totals) {
        return false;
    }
    sets_keep_step(rows, hyper, slot, rate, sets, words, totals)
}

// No total past the last row is above 0.
pub fn spare_clear(rows: usize, totals: &[u64; Table::ROWS]) -> bool
    ensures { Decides (SpareClear rows (at totals.now)) result }
{
    for i in rows..Table::ROWS {
        if totals[i] != 0 {
            return false;
        }
    }
    true
}

// The standings of rows that keep step: total × h − share, and 0 past the last row.
pub fn standings<'a>(
    rows: usize,
    hyper: u64,
    slot: u64,
    rate: &'a [u16; Table::ROWS],
    totals: &'a [u64; Table::ROWS],
) -> [i64; Table::ROWS]
    requires { Bounded rows hyper slot (at rate.now) × RowsKeep rows hyper slot (at rate.now) (at totals.now) }
    ensures { Stands rows hyper slot (at rate.now) (at totals.now) result }
{
    let mut standing = [0i64; Table::ROWS];
    for i in 0..rows {
        standing[i] = numbers::less(totals[i] * hyper, table::slots_at(rate, i) * slot);
    }
    standing
}
