// The verdict: whether the bus can carry a table (document 01, "Loads and bound"), and what is found of a table that is planned.
#![tactic(auto)]

mod weights;

ghost use Rattle.std.specs.Prelude.{◌≡◌, IfOk};
ghost use Rattle.rules.specs.TableFile.{file_table};
ghost use Rattle.rules.specs.Bus as bus;
ghost use Rattle.rules.specs.Refusals.{verdict_checks};
ghost use Rattle.rules.specs.Calls.{file_ask, Judged};
ghost use Rattle.table.specs.Sound.{Sound};
ghost use Rattle.table.specs.Columns.{table_of};
ghost use Rattle.table.specs.Refusal.{number, place};
ghost use Rattle.verdict.specs.Weighing.{Weighable, Weighs};
ghost use Rattle.verdict.specs.Analysed.{table_checks, Accepted, Analysed};
ghost use Rattle.verdict.specs.Verdict.{cut_of, other_of, interval_of, hyper_of, load_of, sets_of};
ghost use Rattle.verdict.specs.Verdict.{JudgedBy, VerdictOn};

use outline::{Layout, Outline};
use table::{Columns, Reason, Refusal, Table, no_columns};
use time::Time;
pub use weights::put_rates;

// ---- the analysis

// What rows and sets weigh: the reported load and how many sets there are.
#[derive(Clone, Copy)]
pub struct Loaded {
    pub load: u64,
    pub sets: usize,
}

// The rows and sets of a table weighed, whose time, line, rates and lowest light row are found, or the first refusal of 13 and 14; `top`
// is where the line ends. Inlined, since the compiler takes a call after `?` for a rare one.
#[inline(always)]
pub fn weigh<'a>(
    rows: usize,
    light: usize,
    top: usize,
    time: Time,
    starts: &'a [u8; Table::ROWS],
    ends: &'a [u8; Table::ROWS],
    rate: &'a [u16; Table::ROWS],
) -> Result<Loaded, Refusal>
    requires { (t : bus.Table) × Weighable t rows light time top starts.now ends.now rate.now }
    ensures { (t : bus.Table) → Weighable t rows light time top starts.now ends.now rate.now
        → Weighs t result }
{
    if light < rows {
        return Err(Refusal::at(Reason::LightRow, light));
    }
    let found = weights::weigh_line(rows, top, starts, ends, rate, time.hyper, time.interval);
    if found.over < found.sets {
        return Err(Refusal::at(Reason::OverBound, found.over));
    }
    Ok(Loaded {
        load: weights::thousandths(found.largest, time.hyper),
        sets: found.sets,
    })
}

// A table analysed: its outline, its reported load, and its rows' rates in units of 1 / h.
#[derive(Clone, Copy)]
pub struct Analysis {
    pub outline: Outline,
    pub load: u64,
    pub rate: [u16; Table::ROWS],
}

// The analysis of a table: 10 and 11 are refused by its outline, then 13, then 14.
pub fn analysis_of(table: &Columns) -> Result<Analysis, Refusal>
    requires { Sound (table_of table.now) }
    ensures { Analysed (table_checks (table_of table.now)) (table_of table.now) result }
{
    let outline = outline::outline_of(table)?;
    let time = outline.time;
    let mut rate = [0u16; Table::ROWS];
    let light = weights::put_rates(
        table.rows,
        time.hyper,
        time.interval,
        &table.cost,
        &table.period,
        &mut rate,
    );
    let weighing = weigh(
        table.rows,
        light,
        outline.top,
        time,
        &outline.first,
        &outline.second,
        &rate,
    )?;
    Ok(Analysis {
        outline,
        load: weighing.load,
        rate,
    })
}

// The analysis of a file's table, or the first refusal of 1 to 9, 26, 18, 10 to 14.
pub fn analyse(file: &[u8]) -> Result<Analysis, Refusal>
    ensures { Analysed (verdict_checks file.now) (file_table file.now) result }
{
    let mut table = no_columns();
    pasted::given_into(file, &mut table)?;
    analysis_of(&table)
}

// ---- the verdict

// What an admitted table is on the line and in time. `other` is the cut of the other ring, 0 where there is one ring.
#[derive(Clone, Copy)]
pub struct Admitted {
    pub cut: u32,
    pub other: u32,
    pub interval: u32,
    pub hyper: u32,
    pub load: u32,
    pub sets: u32,
}

// The verdict on a table. Neither the list of its sets nor its analysis is made up.
fn judge_table(table: &Columns) -> Result<Admitted, Refusal>
    requires { Sound (table_of table.now) }
    ensures { JudgedBy (table_checks (table_of table.now)) (table_of table.now) result }
{
    let mut laid = Layout::none();
    outline::lay_into(table, &mut laid)?;
    let time = laid.time;
    let mut rate = [0u16; Table::ROWS];
    let light = weights::put_rates(
        table.rows,
        time.hyper,
        time.interval,
        &table.cost,
        &table.period,
        &mut rate,
    );
    let weighing = weigh(
        table.rows,
        light,
        laid.top,
        time,
        &laid.line.first,
        &laid.line.second,
        &rate,
    )?;
    Ok(Admitted {
        cut: laid.cut as u32,
        other: laid.other as u32,
        interval: time.interval as u32,
        hyper: time.hyper as u32,
        load: weighing.load as u32,
        sets: weighing.sets as u32,
    })
}

// The verdict that an analysis amounts to; its refusal is handed on.
pub fn verdict_of(analysed: Result<Analysis, Refusal>) -> Result<Admitted, Refusal>
    requires { IfOk analysed (λ a. (t : bus.Table) × Accepted t a) }
    ensures { VerdictOn analysed result }
{
    let table = analysed?;
    Ok(Admitted {
        cut: table.outline.cut as u32,
        other: table.outline.other as u32,
        interval: table.outline.time.interval as u32,
        hyper: table.outline.time.hyper as u32,
        load: table.load as u32,
        sets: table.outline.sets as u32,
    })
}

// Whether the bus can carry the table of a file.
pub fn judge(file: &[u8]) -> Result<Admitted, Refusal>
    ensures { Judged (file_ask file.now) (number result) (place result)
        (cut_of result) (other_of result) (interval_of result) (hyper_of result) (load_of result) (sets_of result) }
{
    let mut table = no_columns();
    pasted::given_into(file, &mut table)?;
    judge_table(&table)
}
