// The planning intervals of an admitted table, one after the other. Arrays are lent where they can be: the supervisor's stack is small.
ghost use Rattle.std.specs.Prelude.{ℕ, length};
ghost use Rattle.rules.specs.Bus as bus;
ghost use Rattle.planner.specs.Plannable.{Plannable};
ghost use Rattle.planner.specs.Course.{Coursed};

use loads::{NODES, Size};
use sets::HEADS;
use table::Table;
use verdict::Analysis;

// Plans the intervals from slot `from` up to slot `until` of an admitted table, for rows that have had `totals`: writes their words to the
// front of `plan`, each interval's to its own stretch, plainly (#114) or not, and gives the totals after the last. What the intervals
// share is laid out once.
pub fn plan_intervals(
    table: Analysis,
    plain: bool,
    from: u64,
    until: u64,
    totals: [u64; Table::ROWS],
    plan: &mut [u64],
) -> [u64; Table::ROWS]
    requires { (t : bus.Table) × (k : ℕ) × (m : ℕ) × Plannable t table k m from until totals (length plan.old) }
    ensures { (t : bus.Table) (k m : ℕ) → Plannable t table k m from until totals (length plan.old)
        → Coursed t k m totals result plan.old plan.new }
{
    let rows = table.outline.rows;
    let top = table.outline.top;
    let time = table.outline.time;
    let mut words = table.outline.words;
    let folded = interval::fold_sets(
        rows,
        table.outline.sets,
        &table.outline.first,
        table.outline.elements,
        &mut words,
    );
    let mut tail = [0u8; Table::ROWS];
    let mut head = [0u8; Table::ROWS];
    let mut out = [0u64; NODES];
    let mut into = [0u64; NODES];
    loads::lay(
        rows,
        folded.sets,
        &words,
        &mut tail,
        &mut head,
        &mut out,
        &mut into,
    );
    let mut heads = [0u8; HEADS];
    let mut next = [0u8; Table::ROWS];
    sets::chain(&table.outline.first, rows, &mut heads, &mut next);
    let size = Size {
        rows,
        sets: folded.sets,
        hyper: time.hyper,
    };
    let even = time::has_shortest(&time.period, time.count, time.interval);
    let inverse = interval::inverse_of(time.hyper);
    let mut load = [0u16; Table::ROWS];
    let mut part = [0u32; Table::ROWS];
    let mut after = totals;
    let mut slot = from;
    let mut at: usize = 0;
    while slot < until {
        let end = time::end_of(&time.period, time.count, time.interval, even, slot);
        let slots = (end - slot) as usize;
        let parted = interval::part_shares(&table.rate, end, size, inverse, &mut load, &mut part);
        let rounded = interval::round_rows(
            folded.upper,
            &tail,
            &head,
            &out,
            &into,
            size,
            &part,
            parted,
        );
        interval::give(rounded, rows, &mut load, &mut after);
        if plain {
            slots::fill_plain(
                &table.outline.first,
                &table.outline.second,
                &heads,
                &next,
                &load,
                top,
                slots,
                &mut plan[at..],
            );
        } else {
            slots::fill(
                &table.outline.second,
                &heads,
                &next,
                &load,
                top,
                slots,
                &mut plan[at..],
            );
        }
        at += slots;
        slot = end;
    }
    after
}
