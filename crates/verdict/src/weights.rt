// What rows and overlap sets weigh (document 01, "Loads and bound").
//
// A load is a whole number of 1 / h, h being a multiple of every period, so loads and bound are compared exactly; the reported load is
// rounded and no verdict uses it.
ghost use Rattle.std.specs.Prelude.{◌≡◌, List, true, not, ◌&&◌, ◌||◌, cond, ℕ, ◌+◌, ◌*◌, ◌/◌, ◌<◌, ◌≤◌, max, ltb, eqb, replicate};
ghost use Rattle.numbers.specs.Lists.{at};
ghost use Rattle.numbers.specs.Finite.{lowest};
ghost use Rattle.numbers.specs.Rounding.{up};
ghost use Rattle.rules.specs.Bounds.{max_rows, max_slots};
ghost use Rattle.rules.specs.Loads.{past};
ghost use Rattle.table.specs.Columns.{ByRow};
ghost use Rattle.sets.specs.Walk.{line_size};
ghost use Rattle.sets.specs.Sets.{OnLine, SetWords};
ghost use Rattle.verdict.specs.Weights.{Times, Rates, next_lowest, SumsAt, Weighed};

use sets::Sets;
use table::Table;

// ---- rows

// How many jobs come in h with the period `period`, where `jobs` come with the period before. Nothing is divided where these are equal.
fn jobs_in(hyper: u64, last: u64, jobs: u64, period: u64) -> u64
    requires { (1 ≤ period) × (jobs ≡ hyper / last) }
    ensures { result ≡ hyper / period }
{
    if period == last {
        return jobs;
    }
    hyper / period
}

// A row's cost × L is below its period.
fn is_light(cost: u64, interval: u64, period: u64) -> bool
    requires { (cost ≤ max_slots) × (interval ≤ max_slots) }
    ensures { result ≡ ltb (cost * interval) period }
{
    cost * interval < period
}

// The lowest number that passes a test, one number on: `found` is the one below `n`, or `n` where there is none.
fn lowest_next(found: usize, n: usize, passes: bool) -> usize
    requires { n < max_rows }
    ensures { result ≡ next_lowest found n passes }
{
    if found == n && !passes { n + 1 } else { found }
}

// All rows' rates, the loads cost / period in units of 1 / h, written to `rate`, which is 0: a row has at most all h slots. Gives the
// lowest light row, the row count where there is none: where all periods are equal L is one too, so that no cost × L is below it.
pub fn put_rates<'a>(
    rows: usize,
    hyper: u64,
    interval: u64,
    cost: &'a [u16; Table::ROWS],
    period: &'a [u16; Table::ROWS],
    rate: &mut [u16; Table::ROWS],
) -> usize
    requires { Times rows (at cost.now) (at period.now) × (hyper ≤ max_slots) × (interval ≤ max_slots)
        × (rate.old ≡ replicate max_rows 0) }
    ensures { ByRow rows (λ i. hyper / at period.now i * at cost.now i) rate.new
        × (result ≡ lowest rows (λ i. ltb (at cost.now i * interval) (at period.now i))) }
{
    let mut light: usize = 0;
    let mut last: u64 = 1;
    let mut jobs = hyper;
    for i in 0..rows {
        let own = table::slots_at(cost, i);
        let next = table::slots_at(period, i);
        jobs = jobs_in(hyper, last, jobs, next);
        last = next;
        rate[i] = (jobs * own) as u16;
        light = lowest_next(light, i, is_light(own, interval, next));
    }
    light
}

// ---- sets

// The load is over the bound: 1 where all periods are equal, (L − 1) / L where they differ.
fn is_over(load: u64, hyper: u64, interval: u64, equal: bool) -> bool
    requires { (load ≤ max_rows * max_slots) × (hyper ≤ max_slots) × (1 ≤ interval) × (interval ≤ max_slots) }
    ensures { result ≡ past equal hyper interval load }
{
    if equal {
        return load > hyper;
    }
    load * interval > (interval - 1) * hyper
}

// What is found of sets: how many there are, the lowest over its bound (their number where none is), and the largest load.
#[derive(Clone, Copy)]
pub struct Weights {
    pub sets: usize,
    pub over: usize,
    pub largest: u64,
}

// One more set, of load `load`, where one closes here.
fn weigh_set(found: Weights, closes: bool, load: u64, hyper: u64, interval: u64) -> Weights
    requires { (closes ≡ true → found.sets < max_rows) × (load ≤ max_rows * max_slots) × (hyper ≤ max_slots)
        × (1 ≤ interval) × (interval ≤ max_slots) }
    ensures { (result.sets ≡ cond closes (found.sets + 1) found.sets)
        × (result.over ≡ cond closes (next_lowest found.over found.sets (past (eqb interval hyper) hyper interval load)) found.over)
        × (result.largest ≡ cond closes (max found.largest load) found.largest) }
{
    if closes {
        let sets = found.sets + 1;
        let passes = is_over(load, hyper, interval, interval == hyper);
        return Weights {
            sets: sets,
            over: lowest_next(found.over, found.sets, passes),
            largest: found.largest.max(load),
        };
    }
    found
}

// A set closes where rows end and some row has started since rows last ended.
fn closes(started: bool, ends: bool) -> bool
    ensures { result ≡ (started && ends) }
{
    started && ends
}

// Whether some row has started since rows last ended, one element on.
fn goes_on(started: bool, starts: bool, ends: bool) -> bool
    ensures { result ≡ (starts || (started && not ends)) }
{
    if starts {
        return true;
    }
    if ends {
        return false;
    }
    started
}

// Adds up for each element of the line the rates of the rows that start there, and of those that end there; both sums are 0.
fn rates_at(
    first: &[u8; Table::ROWS],
    second: &[u8; Table::ROWS],
    rows: usize,
    rate: &[u16; Table::ROWS],
    joining: &mut [u32; Sets::LINE],
    leaving: &mut [u32; Sets::LINE],
)
    requires { Rates rate.now rows × ((i : ℕ) → i < rows → (at first.now i < line_size) × (at second.now i < line_size))
        × (joining.old ≡ replicate line_size 0) × (leaving.old ≡ replicate line_size 0) }
    ensures { SumsAt rows (at first.now) (at rate.now) joining.new
        × SumsAt rows (at second.now) (at rate.now) leaving.new }
{
    for i in 0..rows {
        let from = table::end_at(first, i);
        let to = table::end_at(second, i);
        let more = table::slots_at(rate, i) as u32;
        joining[from] += more;
        leaving[to] += more;
    }
}

// The sets of rows on a line whose last element is `top`, weighed by one walk up the line: their words are not needed.
pub fn weigh_line<'a>(
    rows: usize,
    top: usize,
    first: &'a [u8; Table::ROWS],
    second: &'a [u8; Table::ROWS],
    rate: &'a [u16; Table::ROWS],
    hyper: u64,
    interval: u64,
) -> Weights
    requires { OnLine rows (at first.now) (at second.now) top × Rates rate.now rows × (hyper ≤ max_slots)
        × (1 ≤ interval) × (interval ≤ max_slots) }
    ensures { (ws : List ℕ) × SetWords rows (at first.now) (at second.now) result.sets ws
        × Weighed rows rate.now result.sets ws (eqb interval hyper) hyper interval result.over result.largest }
{
    let mut joining = [0u32; Sets::LINE];
    let mut leaving = [0u32; Sets::LINE];
    rates_at(first, second, rows, rate, &mut joining, &mut leaving);
    let mut found = Weights {
        sets: 0,
        over: 0,
        largest: 0,
    };
    let mut started = false;
    let mut load: u64 = 0;
    for e in 0..top + 1 {
        let starting = joining[e] as u64;
        let ending = leaving[e] as u64;
        found = weigh_set(found, closes(started, ending != 0), load, hyper, interval);
        started = goes_on(started, starting != 0, ending != 0);
        load = load - ending + starting;
    }
    found
}

// A load in thousandths, rounded up.
pub fn thousandths(load: u64, hyper: u64) -> u64
    requires { (load ≤ max_rows * max_slots) × (1 ≤ hyper) × (hyper ≤ max_slots) }
    ensures { result ≡ up (1000 * load) hyper }
{
    (1000 * load).div_ceil(hyper)
}
