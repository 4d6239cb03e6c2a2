// Limits of two parties, in thousandths, for any one ring segment (#108).
//
// A party's rows are weighed where they stand among all rows, over the h of all rows; that this is what they weigh alone is a law
// (proofs/Own).
ghost use Rattle.std.specs.Prelude.{◌≡◌, ◌&&◌, ℕ, ◌*◌, ◌<◌, ◌≤◌, ltb};
ghost use Rattle.numbers.specs.Finite.{lowest, sum_in};
ghost use Rattle.numbers.specs.Lists.{at};
ghost use Rattle.numbers.specs.Word.{bit};
ghost use Rattle.rules.specs.Bounds.{max_elements, max_rows, max_slots};
ghost use Rattle.rules.specs.Bus as bus;
ghost use Rattle.rules.specs.Parties.{max_limit, owns};
ghost use Rattle.rules.specs.Refusals.{Answers, limit_checks};
ghost use Rattle.table.specs.Refusal.{number, place};
ghost use Rattle.limited.specs.Limits.{party, RatesFit, weight_on, labelled, Limited, OverAt};

use table::{Reason, Refusal, Table};

// Each party's limit in thousandths.
#[derive(Clone, Copy)]
pub struct Limits {
    pub ours: u32,
    pub theirs: u32,
}

impl Limits {
    // A limit is at most this.
    pub const MOST: u32 = 1000;
}

// The first label that is the second maker's.
const THEIRS_FROM: u64 = 32768;

// A row with this label is the party's.
fn is_of(label: u64, theirs: bool) -> bool
    ensures { result ≡ owns (party theirs) label }
{
    let low = label < THEIRS_FROM;
    if theirs { !low } else { low }
}

// A row with this label is the party's and uses the segment whose bit is `s`.
fn counts(label: u64, theirs: bool, segments: u32, s: usize) -> bool
    requires { s < max_elements }
    ensures { result ≡ (owns (party theirs) label && bit segments s) }
{
    is_of(label, theirs) && (segments >> s) % 2 == 1
}

// What the party's rows weigh on that segment, in units of 1 / h.
fn load_on<'a>(
    rows: usize,
    rate: &'a [u16; Table::ROWS],
    segments: &'a [u32; Table::ROWS],
    label: &'a [u16; Table::ROWS],
    theirs: bool,
    s: usize,
) -> u64
    requires { RatesFit rows rate.now × (s < max_elements) }
    ensures { (result ≡ weight_on rows rate.now segments.now label.now theirs s)
        × (result ≤ max_rows * max_slots) }
{
    let mut sum: u64 = 0;
    for i in 0..rows {
        if counts(table::slots_at(label, i), theirs, segments[i], s) {
            sum += table::slots_at(rate, i);
        }
    }
    sum
}

// The lowest segment, counted from 0, on which the party is over its limit; the element count where there is none.
fn lowest_over<'a>(
    elements: usize,
    rows: usize,
    hyper: u64,
    rate: &'a [u16; Table::ROWS],
    segments: &'a [u32; Table::ROWS],
    label: &'a [u16; Table::ROWS],
    theirs: bool,
    limit: u32,
) -> usize
    requires { RatesFit rows rate.now × (elements ≤ max_elements) × (hyper ≤ max_slots) × (limit ≤ max_limit) }
    ensures { result ≡ lowest elements
        (λ s. ltb (limit * hyper) (1000 * weight_on rows rate.now segments.now label.now theirs s)) }
{
    let most = limit as u64 * hyper;
    for s in 0..elements {
        if most < 1000 * load_on(rows, rate, segments, label, theirs, s) {
            return s;
        }
    }
    elements
}

// The refusal of a party that is over its limit on segment `s`, counted from 0; none where `s` is no segment.
fn over_at(reason: Reason, elements: usize, s: usize) -> Result<(), Refusal>
    requires { elements ≤ max_elements }
    ensures { OverAt reason elements s result }
{
    if s < elements {
        return Err(Refusal::at(reason, s + 1));
    }
    Ok(())
}

// The first refusal of 21 and 22 of a table whose h and rates are found.
pub fn kept_within<'a>(
    elements: usize,
    rows: usize,
    hyper: u64,
    rate: &'a [u16; Table::ROWS],
    segments: &'a [u32; Table::ROWS],
    label: &'a [u16; Table::ROWS],
    limits: Limits,
) -> Result<(), Refusal>
    requires { ((t : bus.Table) × Limited t elements rows hyper rate.now segments.now)
        × (limits.ours ≤ max_limit) × (limits.theirs ≤ max_limit) }
    ensures { (t : bus.Table) → Limited t elements rows hyper rate.now segments.now
        → Answers (limit_checks (labelled t label.now) limits.ours limits.theirs) (number result) (place result) }
{
    let our = lowest_over(
        elements,
        rows,
        hyper,
        rate,
        segments,
        label,
        false,
        limits.ours,
    );
    over_at(Reason::OurLimit, elements, our)?;
    let their = lowest_over(
        elements,
        rows,
        hyper,
        rate,
        segments,
        label,
        true,
        limits.theirs,
    );
    over_at(Reason::TheirLimit, elements, their)
}
