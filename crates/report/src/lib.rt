// What the program prints, written to lent bytes (document 01, "The program and one whole output").
//
// Each `put_` function writes lines from place `at` on, as far as there is room, and returns the place after them.
#![tactic(auto)]

pub mod meetings;
pub mod raised;

ghost use Rattle.std.specs.Prelude.{List, [], ◌∷◌, ℕ, ◌+◌, ◌*◌, ◌≤◌, length};
ghost use Rattle.numbers.specs.Lists.{at as item, each};
ghost use Rattle.rules.specs.Bounds.{max_rows, max_slots};
ghost use Rattle.rules.specs.Bus as bus;
ghost use Rattle.rules.specs.Line.{Sets};
ghost use Rattle.rules.specs.Planner.{WholePlan};
ghost use Rattle.table.specs.Refusal.{number, place};
ghost use Rattle.verdict.specs.Analysed.{Accepted};
ghost use Rattle.planner.specs.Analysed.{Usable};
ghost use Rattle.decimal.specs.Puts.{limit, line_of, max_line, PutsLine, PutsLines};
ghost use Rattle.rules.specs.Program.{verdict, values, set, slot, set_lines, slot_lines};
ghost use Rattle.report.specs.Rendered.{cuts, word_line, Rendered, RelayRendered, RenderedOn};
ghost use Rattle.report.specs.Plain.{PlainRendered};

use decimal::put_line;
use table::{Refusal, Table};
use verdict::Analysis;

// The program's input: one byte more than the longest table file has, so that a longer one is refused for its length.
pub const INPUT: usize = Table::FILE_BYTES + 1;

// Room for every report: 64 bytes for each of the verdict, two cuts, the three values, the sets and the slots.
pub const SIZE: usize = 64 * (6 + Table::ROWS + Table::SLOTS);

// Room for the slots of both planners, or a refusal.
pub const PLAIN_SIZE: usize = 64 * 2 * Table::SLOTS;

// ---- lines

// A line of one number.
pub(crate) fn put_value(word: &[u8], x: u64, out: &mut [u8], at: usize) -> usize
    requires { (length word.now ≤ 8) × (at + max_line ≤ limit) }
    ensures { PutsLine (line_of word.now (x ∷ [])) out.old at out.new result }
{
    put_line(word, &[x], out, at)
}

pub fn put_verdict(number: u32, place: u32, out: &mut [u8]) -> usize
    ensures { PutsLine (verdict number place) out.old 0 out.new result }
{
    put_line(b"verdict", &[number as u64, place as u64], out, 0)
}

// The line of a verdict, or of what is refused before it.
pub(crate) fn put_judged<T>(answer: &Result<T, Refusal>, out: &mut [u8]) -> usize
    ensures { PutsLine (verdict (number answer.now) (place answer.now)) out.old 0 out.new result }
{
    put_verdict(table::number(answer), table::place(answer), out)
}

// The cut of each ring; that of the other is 0 where there is one ring.
fn put_cuts(cut: usize, other: usize, out: &mut [u8], at: usize) -> usize
    requires { at + max_line * 2 ≤ limit }
    ensures { PutsLines (cuts cut other) 2 out.old at out.new result }
{
    let next = put_value(b"cut", cut as u64, out, at);
    if other == 0 {
        return next;
    }
    put_value(b"cut", other as u64, out, next)
}

fn put_values(interval: u64, hyper: u64, load: u64, out: &mut [u8], at: usize) -> usize
    requires { at + max_line * 3 ≤ limit }
    ensures { PutsLines (values interval hyper load) 3 out.old at out.new result }
{
    let next = put_value(b"interval", interval, out, at);
    let last = put_value(b"hyper", hyper, out, next);
    put_value(b"load", load, out, last)
}

// A slot's line, which has its number `k`, or a set's.
fn put_word(slots: bool, k: u64, word: u64, out: &mut [u8], at: usize) -> usize
    requires { at + max_line ≤ limit }
    ensures { PutsLine (word_line slots k word) out.old at out.new result }
{
    if slots {
        return put_line(b"slot", &[k, word], out, at);
    }
    put_value(b"set", word, out, at)
}

fn put_words(slots: bool, words: &[u64], out: &mut [u8], at: usize) -> usize
    requires { at + max_line * length words.now ≤ limit }
    ensures { PutsLines (each (length words.now) (λ k. word_line slots k (item words.now k) ∷ []))
        (length words.now) out.old at out.new result }
{
    let mut next = at;
    for (k, word) in words.iter().enumerate() {
        next = put_word(slots, k as u64, *word, out, next);
    }
    next
}

// ---- an admitted table's lists

fn put_list(table: Analysis, out: &mut [u8], at: usize) -> usize
    requires { ((t : bus.Table) × Accepted t table) × (at + max_line * max_rows ≤ limit) }
    ensures { (t : bus.Table) → Accepted t table → (ws : List ℕ) × Sets t ws
        × PutsLines (set_lines ws) max_rows out.old at out.new result }
{
    let words = table.outline.words;
    let sets = table.outline.sets;
    put_words(false, &words[..sets], out, at)
}

// The slots of its whole plan, by the plain planner (#114) or by the other: they are the same.
fn put_plan(table: Analysis, plain: bool, out: &mut [u8], at: usize) -> usize
    requires { ((t : bus.Table) × Accepted t table) × (at + max_line * max_slots ≤ limit) }
    ensures { (t : bus.Table) → Accepted t table → (ws : List ℕ) × WholePlan t ws
        × PutsLines (slot_lines ws) max_slots out.old at out.new result }
{
    let slots = table.outline.time.hyper as usize;
    let mut plan = [0u64; Table::SLOTS];
    // no plan is longer, so it isn't refused
    let _ = planner::plan_on(Ok(table), plain, &mut plan);
    put_words(true, &plan[..slots], out, at)
}

// ---- the report

// What is printed of an analysed table, at the front of `out`; how many bytes it is. Of a refusal it is the first line only.
fn put_analysis(analysed: Result<Analysis, Refusal>, out: &mut [u8]) -> usize
    requires { Usable analysed }
    ensures { RenderedOn analysed out.old out.new result }
{
    let first = put_judged(&analysed, out);
    let Ok(table) = analysed else {
        return first;
    };
    let time = table.outline.time;
    let parted = put_cuts(table.outline.cut, table.outline.other, out, first);
    let valued = put_values(time.interval, time.hyper, table.load, out, parted);
    let listed = put_list(table, out, valued);
    put_plan(table, false, out, listed)
}

// What the program prints for its input.
pub fn render(input: &[u8], out: &mut [u8]) -> usize
    ensures { Rendered input.now out.old out.new result }
{
    let read = input.len().min(INPUT);
    put_analysis(verdict::analyse(&input[..read]), out)
}

// What the program with a relay prints (#113).
pub fn render_relayed(input: &[u8], relay: usize, out: &mut [u8]) -> usize
    ensures { RelayRendered input.now relay out.old out.new result }
{
    let read = input.len().min(INPUT);
    put_analysis(relayed::analyse(&input[..read], relay), out)
}

// What the program of both planners prints for a table file (#114). Of a refusal it is the verdict's line only.
pub fn render_plain(file: &[u8], out: &mut [u8]) -> usize
    ensures { PlainRendered file.now out.old out.new result }
{
    let analysed = verdict::analyse(file);
    let Ok(table) = analysed else {
        return put_judged(&analysed, out);
    };
    let next = put_plan(table, true, out, 0);
    put_plan(table, false, out, next)
}
