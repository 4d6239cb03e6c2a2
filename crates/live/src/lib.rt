// The live table (#109): 64 places for rows, and for each segment of the ring its exact load sum over one denominator, the least common
// multiple of the periods present. An operator adds and removes one row at a time between reels.
//
// Every call first looks whether the live table that it is lent keeps the rules, which works denominator and sums out afresh. So a change
// works them out afresh too, by the same functions, and nothing is carried along that could drift.
#![tactic(auto)]

mod files;
mod seats;
mod tally;

ghost use Rattle.std.specs.Prelude.{◌≡◌, not, ℕ, ◌<◌, ltb, MatchOption};
ghost use Rattle.numbers.specs.Decides.{Decides};
ghost use Rattle.numbers.specs.Finite.{lowest};
ghost use Rattle.numbers.specs.Lists.{at};
ghost use Rattle.rules.specs.Bounds.{max_elements, max_rows};
ghost use Rattle.rules.specs.Live.{InOrder};
ghost use Rattle.live.specs.State.{live_of, row_of, NewSeat, PutIn};
ghost use Rattle.live.specs.Answers.{NewAnswer, AddAnswer, RemoveAnswer};

pub use files::write_file;
use table::{Reason, Refusal, Row, Table};

// The sum of segment s + 1 stands at s.
#[repr(C)]
#[derive(Clone, Copy)]
pub struct Live {
    pub elements: usize,
    pub cost: [u16; Table::ROWS],
    pub period: [u16; Table::ROWS],
    pub first: [u8; Table::ROWS],
    pub second: [u8; Table::ROWS],
    pub label: [u16; Table::ROWS],
    pub denominator: u64,
    pub sums: [u64; Table::ELEMENTS],
}

// A row that is to be put in a place, with its label. A live table has one ring, so no direction is told.
#[derive(Clone, Copy)]
pub struct Entry {
    pub cost: u16,
    pub period: u16,
    pub first: u16,
    pub second: u16,
    pub label: u16,
}

fn clockwise(entry: Entry) -> Row
    ensures { result ≡ row_of entry }
{
    Row {
        cost: entry.cost,
        period: entry.period,
        first: entry.first,
        second: entry.second,
        way: 0,
        label: entry.label,
    }
}

#[tactic(auto, using(crate::proofs::Seated::same_decided))]
fn are_same<'a>(a: &'a [u64; Table::ELEMENTS], b: &'a [u64; Table::ELEMENTS]) -> bool
    ensures { Decides ((s : ℕ) → s < max_elements → at a.now s ≡ at b.now s) result }
{
    a == b
}

// The lowest free place, none where all hold rows.
fn lowest_free(period: &[u16; Table::ROWS]) -> Option<usize>
    ensures { let k = lowest max_rows (λ i. not (ltb 0 (at period.now i))) in
        MatchOption result (k ≡ max_rows) (λ i. (i ≡ k) × (i < max_rows)) }
{
    period.iter().position(|p| *p == 0)
}

impl Live {
    // No rows. A denominator of 0 is no live table's.
    fn blank(elements: usize, denominator: u64) -> Live
        ensures { result ≡ Rattle.live.specs.State.blank elements denominator }
    {
        Live {
            elements: elements,
            cost: [0; Table::ROWS],
            period: [0; Table::ROWS],
            first: [0; Table::ROWS],
            second: [0; Table::ROWS],
            label: [0; Table::ROWS],
            denominator: denominator,
            sums: [0; Table::ELEMENTS],
        }
    }

    // Nothing but zeros: what stands in the place of a live table that is not made.
    pub fn nothing() -> Live
        ensures { result ≡ Rattle.live.specs.State.blank 0 0 }
    {
        Live::blank(0, 0)
    }

    // It keeps the rules: any other is off.
    pub fn is_in_order(&self) -> bool
        ensures { Decides (InOrder (live_of self.now)) result }
    {
        if !seats::are_seated(
            self.elements,
            &self.cost,
            &self.period,
            &self.first,
            &self.second,
            &self.label,
        ) {
            return false;
        }
        let d = tally::denominator_of(&self.period);
        if d == 0 {
            return false;
        }
        if d != self.denominator {
            return false;
        }
        let sums = tally::sums_of(
            self.elements,
            d,
            &self.cost,
            &self.period,
            &self.first,
            &self.second,
        );
        are_same(&self.sums, &sums)
    }

    // What it is once place `k` holds the entry: denominator and sums are worked out afresh. The denominator is 0 where it would be above
    // 4096.
    fn put(&self, k: usize, entry: Entry) -> Live
        requires { (k < max_rows) × InOrder (live_of self.now) × NewSeat self.now.elements entry }
        ensures { PutIn self.now k entry result }
    {
        let mut cost = self.cost;
        let mut period = self.period;
        let mut first = self.first;
        let mut second = self.second;
        let mut label = self.label;
        cost[k] = entry.cost;
        period[k] = entry.period;
        first[k] = entry.first as u8;
        second[k] = entry.second as u8;
        label[k] = entry.label;
        let d = tally::denominator_of(&period);
        let sums = tally::sums_of(self.elements, d, &cost, &period, &first, &second);
        Live {
            elements: self.elements,
            cost: cost,
            period: period,
            first: first,
            second: second,
            label: label,
            denominator: d,
            sums: sums,
        }
    }

    // A live table of a ring of `elements`, with no rows.
    pub fn new(elements: usize) -> Result<Live, Refusal>
        ensures { NewAnswer elements result }
    {
        if elements < 2 {
            return Err(Reason::WrongElements.into());
        }
        if elements > Table::ELEMENTS {
            return Err(Reason::WrongElements.into());
        }
        Ok(Live::blank(elements, 1))
    }

    // An entry is put in the lowest free place, which is answered. A refusal leaves the live table as it was.
    pub fn add(&mut self, entry: Entry) -> Result<u32, Refusal>
        ensures { AddAnswer self.old entry self.new result }
    {
        if !self.is_in_order() {
            return Err(Reason::OffState.into());
        }
        let row = clockwise(entry);
        table::row_fault(self.elements, 1, row)?;
        if seats::has_row(Table::ROWS, &self.period, &self.first, &self.second, row) {
            return Err(Reason::PastedRow.into());
        }
        let k = lowest_free(&self.period).ok_or(Reason::NoFreePlace)?;
        let after = self.put(k, entry);
        if after.denominator == 0 {
            return Err(Reason::LongHyperperiod.into());
        }
        *self = after;
        Ok(k as u32)
    }

    // The row in place `k` is removed, and the place is free again. A refusal leaves the live table as it was.
    pub fn remove(&mut self, k: usize) -> Result<(), Refusal>
        ensures { RemoveAnswer self.old k self.new result }
    {
        if !self.is_in_order() {
            return Err(Reason::OffState.into());
        }
        if k >= Table::ROWS {
            return Err(Reason::NoRowThere.into());
        }
        if table::slots_at(&self.period, k) == 0 {
            return Err(Reason::NoRowThere.into());
        }
        let free = Entry {
            cost: 0,
            period: 0,
            first: 0,
            second: 0,
            label: 0,
        };
        *self = self.put(k, free);
        Ok(())
    }
}
