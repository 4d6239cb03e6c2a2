// The time of a table: its hyperperiod, and how that is cut into planning intervals.
#![tactic(auto)]

ghost use Rattle.std.specs.Prelude.{◌≡◌, not, ℕ, ◌+◌, ◌*◌, ◌/◌, ◌<◌, ◌≤◌, min, eqb};
ghost use Rattle.numbers.specs.Finite.{any};
ghost use Rattle.numbers.specs.Lists.{at};
ghost use Rattle.numbers.specs.Divisors.{divides, lcm, Past};
ghost use Rattle.numbers.specs.Pairs.{IsLcm, LeastGcd};
ghost use Rattle.rules.specs.Bounds.{max_rows, max_slots};
ghost use Rattle.rules.specs.Bus as bus;
ghost use Rattle.rules.specs.Loads.{start, end, intervals};
ghost use Rattle.time.specs.Time.{Periods, Capped, Nearing, Clocks, no_time, time_of, Timed, Begins};

use table::Table;

// ---- h

// The least common multiple of `h` and `period`. The remainder tells whether `h` is one already, and else begins their greatest common
// divisor.
fn raised(h: u64, period: u64) -> u64
    requires { (0 < h) × (h ≤ max_slots) × (0 < period) × (period ≤ max_slots) }
    ensures { IsLcm h period result }
{
    if h == 1 {
        return period;
    }
    let rest = h % period;
    if rest == 0 {
        return h;
    }
    h / numbers::gcd_of(period, rest) * period
}

// ---- the leading periods: those that are no multiple of an earlier row's. A job of another row ends only where one of theirs does.

// `next` is no multiple of the first `count` of `kept`.
fn is_leading(kept: &[u16; Table::ROWS], count: usize, next: u64) -> bool
    requires { (count ≤ max_rows) × ((k : ℕ) → k < count → 0 < at kept.now k) }
    ensures { result ≡ not (any count (λ k. divides (at kept.now k) next)) }
{
    for k in 0..count {
        if next % table::slots_at(kept, k) == 0 {
            return false;
        }
    }
    true
}

// The one place where a period is looked for among those met. Of two periods with one place the later puts the earlier out.
fn place_of(period: u64) -> usize
    requires { period ≤ max_slots }
    ensures { result < max_rows }
{
    ((period + period / 64) % 64) as usize
}

// ---- L

// `l` lowered to the greatest common divisors of period `i` and each before it.
fn lowered(l: u64, period: &[u16; Table::ROWS], i: usize) -> u64
    requires { (n : ℕ) × Periods n (at period.now) × Nearing n (at period.now) i 0 l × (i < n) }
    ensures { (n : ℕ) → Periods n (at period.now) → Nearing n (at period.now) i 0 l → i < n
        → Nearing n (at period.now) (i + 1) 0 result }
{
    let own = table::slots_at(period, i);
    let mut least = l;
    for j in 0..i {
        least = least.min(numbers::gcd_of(own, table::slots_at(period, j)));
    }
    least
}

// The least greatest common divisor of any two of the first `count` periods: L, where they lead.
fn shortest_of(count: usize, period: &[u16; Table::ROWS]) -> u64
    requires { Periods count (at period.now) }
    ensures { LeastGcd count (at period.now) result }
{
    let mut l = table::slots_at(period, 0);
    for i in 1..count {
        l = lowered(l, period, i);
    }
    l
}

// ---- where jobs end

// The first multiple of `period` past `slot`.
fn after(period: u64, slot: u64) -> u64
    requires { (1 ≤ period) × (period ≤ max_slots) × (slot ≤ max_slots) }
    ensures { result ≡ slot / period * period + period }
{
    slot / period * period + period
}

// The first multiple past `slot` of any of the first `count` periods.
fn multiple_past(count: usize, period: &[u16; Table::ROWS], slot: u64) -> u64
    requires { Periods count (at period.now) × (slot ≤ max_slots) }
    ensures { Past count (at period.now) slot result }
{
    let mut end = after(table::slots_at(period, 0), slot);
    for k in 1..count {
        end = end.min(after(table::slots_at(period, k), slot));
    }
    end
}

// h, L, and the leading periods with their count, from which it is known where the intervals end.
#[derive(Clone, Copy)]
pub struct Time {
    pub hyper: u64,
    pub interval: u64,
    pub count: usize,
    pub period: [u16; Table::ROWS],
}

impl Time {
    // The time of no table: what stands beside a refusal.
    pub fn none() -> Time
        ensures { result ≡ no_time }
    {
        Time {
            hyper: 0,
            interval: 0,
            count: 0,
            period: [0; Table::ROWS],
        }
    }

    // The time of a table, all 0 where h is above 4096: it only grows from row to row, so the rows after that are left. Nothing is divided
    // for a period that was met and not put out: most tables have few.
    pub fn of(rows: usize, period: &[u16; Table::ROWS]) -> Time
        requires { Periods rows (at period.now) }
        ensures { Clocks rows (at period.now) result }
    {
        let mut met = [0u16; Table::ROWS];
        let mut kept = [0u16; Table::ROWS];
        let mut count: usize = 0;
        let mut h: u64 = 1;
        for i in 0..rows {
            let next = table::slots_at(period, i);
            let place = place_of(next);
            if table::slots_at(&met, place) != next {
                met[place] = period[i];
                h = raised(h, next);
                if h > Table::SLOTS as u64 {
                    return Time::none();
                }
                if is_leading(&kept, count, next) {
                    kept[count] = period[i];
                    count += 1;
                }
            }
        }
        Time {
            hyper: h,
            interval: shortest_of(count, &kept),
            count: count,
            period: kept,
        }
    }

    // The end of the interval that begins at `slot`. Where one period leads, every interval is as long as L.
    pub fn next_end(self, slot: u64) -> u64
        requires { (t : bus.Table) × (k : ℕ) × Timed t self × Begins t k slot }
        ensures { (t : bus.Table) (k : ℕ) → Timed t self → Begins t k slot → result ≡ end t k }
    {
        if self.count == 1 {
            return slot + self.interval;
        }
        multiple_past(self.count, &self.period, slot)
    }

    // The first slot of interval `k`, or h where there are no more than `k` intervals: found by going from end to end.
    fn walk_to(self, k: u64) -> u64
        requires { (t : bus.Table) × Timed t self }
        ensures { (t : bus.Table) → Timed t self → result ≡ start t (min k (intervals t)) }
    {
        let mut slot: u64 = 0;
        for _ in 0..k {
            if slot == self.hyper {
                return slot;
            }
            slot = multiple_past(self.count, &self.period, slot);
        }
        slot
    }

    // The first slot of interval `k`, or h where there are no more than `k` intervals.
    pub fn start_of(self, k: u64) -> u64
        requires { (t : bus.Table) × Timed t self }
        ensures { (t : bus.Table) → Timed t self → result ≡ start t (min k (intervals t)) }
    {
        if self.count != 1 {
            return self.walk_to(k);
        }
        if k < self.hyper / self.interval {
            return k * self.interval;
        }
        self.hyper
    }
}

// ---- intervals that are all as long as L

// Whether L is one of the leading periods. Then every interval is as long as L.
pub fn has_shortest(period: &[u16; Table::ROWS], count: usize, interval: u64) -> bool
    requires { count ≤ max_rows }
    ensures { result ≡ any count (λ k. eqb (at period.now k) interval) }
{
    for k in 0..count {
        if table::slots_at(period, k) == interval {
            return true;
        }
    }
    false
}

// The end of the interval that begins at `slot`, with no quotient where all intervals are as long as L. It is asked for in every interval,
// and is handed of the time only what it needs.
pub fn end_of(
    period: &[u16; Table::ROWS],
    count: usize,
    interval: u64,
    even: bool,
    slot: u64,
) -> u64
    requires { ((t : bus.Table) × (k : ℕ) × (h : ℕ) × Timed t (time_of h interval count period.now) × Begins t k slot)
        × (even ≡ any count (λ k. eqb (at period.now k) interval)) }
    ensures { (t : bus.Table) (k h : ℕ) → Timed t (time_of h interval count period.now) → Begins t k slot
        → result ≡ end t k }
{
    if even {
        return slot + interval;
    }
    multiple_past(count, period, slot)
}

// h, the least common multiple of the periods, or 0 where it is above 4096.
pub fn hyperperiod_of(rows: usize, period: &[u16; Table::ROWS]) -> u64
    requires { Periods rows (at period.now) }
    ensures { Capped (lcm rows (at period.now)) result }
{
    Time::of(rows, period).hyper
}
