// What a table is on the line: its cuts, its rows' ends, its overlap sets, hyperperiod and interval, or a refusal of 1 to 11, 18 and 26.
#![tactic(auto)]

ghost use Rattle.std.specs.Prelude.{◌≡◌, not, cond, ℕ, ◌+◌, ◌≤◌, ltb, eqb, length, MatchOption};
ghost use Rattle.numbers.specs.Finite.{any};
ghost use Rattle.numbers.specs.Lists.{at};
ghost use Rattle.rules.specs.Bounds.{max_elements, max_rows};
ghost use Rattle.rules.specs.Bus.{mirror};
ghost use Rattle.rules.specs.Line as line;
ghost use Rattle.rules.specs.TableFile.{file_table};
ghost use Rattle.rules.specs.Refusals.{line_checks};
ghost use Rattle.rules.specs.Calls.{lent, line_ask, Listed};
ghost use Rattle.table.specs.Refusal.{number, place};
ghost use Rattle.table.specs.Sound.{Sound};
ghost use Rattle.ring.specs.Route.{Element};
ghost use Rattle.ring.specs.Rows.{Routed, rings_of};
ghost use Rattle.outline.specs.Layout.{table_with, no_layout, LaidInto, LaidOut};
ghost use Rattle.outline.specs.Outlined.{outline_checks, Outlined};
ghost use Rattle.outline.specs.Listed.{Traced, count, ListedOn};

use ring::Line;
use table::{Columns, Reason, Refusal, Table};
use time::Time;

// ---- the cuts

// No row runs on ring `d`.
fn is_idle(rows: usize, way: &[u8; Table::ROWS], d: usize) -> bool
    requires { rows ≤ max_rows }
    ensures { result ≡ not (any rows (λ i. eqb (at way.now i) d)) }
{
    for i in 0..rows {
        if table::end_at(way, i) == d {
            return false;
        }
    }
    true
}

// The cut of ring `d` in its own numbers, if it has one; 1 where the board has no such ring: a table with one ring is not walked twice.
// Inlined, since the compiler takes a call after `?` or `let .. else` for a rare one.
#[inline(always)]
fn cut_on(table: &Columns, d: usize) -> Option<usize>
    requires { Routed table.now }
    ensures { MatchOption result
        (cond (ltb d table.now.rings) (line.cut (rings_of table.now table.now.rows) d) 1 ≡ table.now.elements + 1)
        (λ e. (e ≡ cond (ltb d table.now.rings) (line.cut (rings_of table.now table.now.rows) d) 1)
        × (1 ≤ table.now.elements → e ≤ table.now.elements)) }
{
    if d < table.rings {
        return ring::find_cut(table, d);
    }
    Some(1)
}

// The cut of ring `d` as the board's own number: 1 where the ring is idle, 0 where there is no such ring.
fn board_cut(table: &Columns, d: usize, cut: usize) -> usize
    requires { (table.now.rows ≤ max_rows) × (table.now.elements ≤ max_elements) × Element table.now.elements cut }
    ensures { result
        ≡ cond (ltb d table.now.rings)
        (cond (not (any table.now.rows (λ i. eqb (at table.now.way i) d))) 1 (mirror table.now.elements d cut)) 0 }
{
    if d >= table.rings {
        return 0;
    }
    if is_idle(table.rows, &table.way, d) {
        return 1;
    }
    ring::mirrored(table.elements, d, cut)
}

// ---- the layout

// Where a table's line begins on each ring, as the board's own number, and where it ends; its time; and its rows' ends on the line.
#[derive(Clone, Copy)]
pub struct Layout {
    pub cut: usize,
    pub other: usize,
    pub top: usize,
    pub time: Time,
    pub line: Line,
}

impl Layout {
    // The layout of no table: what is lent to be written.
    pub fn none() -> Layout
        ensures { result ≡ no_layout }
    {
        Layout {
            cut: 0,
            other: 0,
            top: 0,
            time: Time::none(),
            line: Line {
                first: [0; Table::ROWS],
                second: [0; Table::ROWS],
            },
        }
    }
}

// A table laid on its line, written to `laid`, or the first refusal of 10 and 11, which leaves it as it was. Its costs say nothing of that.
// Lent, a layout is nowhere copied.
pub fn lay_into(table: &Columns, laid: &mut Layout) -> Result<(), Refusal>
    requires { (cost : ℕ → ℕ) × Sound (table_with cost table.now) }
    ensures { (cost : ℕ → ℕ) → Sound (table_with cost table.now) → LaidInto (table_with cost table.now) laid.old result laid.new }
{
    let Some(cut) = cut_on(table, 0) else {
        return Err(Refusal::at(Reason::NoCut, 0));
    };
    let Some(other) = cut_on(table, 1) else {
        return Err(Refusal::at(Reason::NoCut, 1));
    };
    let time = Time::of(table.rows, &table.period);
    if time.hyper == 0 {
        return Err(Refusal::from(Reason::LongHyperperiod));
    }
    *laid = Layout {
        cut: board_cut(table, 0, cut),
        other: board_cut(table, 1, other),
        top: table.rings * (table.elements + 1),
        time,
        line: ring::lay(table, cut, other),
    };
    Ok(())
}

// The same, handed back.
pub fn layout_of(table: &Columns) -> Result<Layout, Refusal>
    requires { (cost : ℕ → ℕ) × Sound (table_with cost table.now) }
    ensures { (cost : ℕ → ℕ) → Sound (table_with cost table.now) → LaidOut (table_with cost table.now) result }
{
    let mut laid = Layout::none();
    lay_into(table, &mut laid)?;
    Ok(laid)
}

// ---- the outline

// A table on the line and in time.
#[derive(Clone, Copy)]
pub struct Outline {
    pub elements: usize,
    pub rows: usize,
    pub cut: usize,
    pub other: usize,
    pub top: usize,
    pub time: Time,
    pub first: [u8; Table::ROWS],
    pub second: [u8; Table::ROWS],
    pub sets: usize,
    pub words: [u64; Table::ROWS],
}

// What a table is on the line and in time, or the first refusal of 10 and 11.
pub fn outline_of(table: &Columns) -> Result<Outline, Refusal>
    requires { (cost : ℕ → ℕ) × Sound (table_with cost table.now) }
    ensures { (cost : ℕ → ℕ) → Sound (table_with cost table.now)
        → Outlined (line_checks (table_with cost table.now)) (table_with cost table.now) result }
{
    let mut laid = Layout::none();
    lay_into(table, &mut laid)?;
    let first = laid.line.first;
    let second = laid.line.second;
    let list = sets::list_sets(&first, &second, table.rows, laid.top);
    let words = list.words;
    Ok(Outline {
        elements: table.elements,
        rows: table.rows,
        cut: laid.cut,
        other: laid.other,
        top: laid.top,
        time: laid.time,
        first,
        second,
        sets: list.count,
        words,
    })
}

// What a file's table is on the line, or the first refusal of 1 to 9, 26, 18, 10 and 11.
fn outline_file(file: &[u8]) -> Result<Outline, Refusal>
    ensures { Outlined (outline_checks file.now) (file_table file.now) result }
{
    let found = pasted::given(file)?;
    outline_of(&found.columns)
}

// The words, written to the front of `out`.
#[tactic(auto, unfolding(rules::specs::Calls::lent))]
fn write_front(words: &[u64], out: &mut [u64])
    requires { length words.now ≤ length out.old }
    ensures { out.new ≡ lent words.now out.old }
{
    out[..words.len()].copy_from_slice(words);
}

// How many overlap sets a table in outline has. Their list is written to the front of `out`, or 17 where it is too short; the refusal of an
// outline is handed on.
pub fn list_on(outlined: Result<Outline, Refusal>, out: &mut [u64]) -> Result<u32, Refusal>
    requires { Traced outlined }
    ensures { ListedOn outlined result out.old out.new }
{
    let table = outlined?;
    let sets = table.sets;
    if out.len() < sets {
        return Err(Refusal::from(Reason::ShortOutput));
    }
    write_front(&table.words[..sets], out);
    Ok(sets as u32)
}

// The list of the overlap sets of a file's table, and how many there are.
pub fn list_of_sets(file: &[u8], out: &mut [u64]) -> Result<u32, Refusal>
    ensures { Listed (line_ask file.now) out.old out.new (number result) (place result) (count result) }
{
    list_on(outline_file(file), out)
}
