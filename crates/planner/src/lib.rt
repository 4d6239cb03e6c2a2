// The planner (document 01, "The planner"): a step, the standings, and the whole plan.
//
// Each call analyses a file's table, and then does its work on the analysis: `step_on`, `standings_on` and `plan_on` serve any table,
// whatever it was analysed from.
//
// A planner is kept by the caller and any state may be handed in. So the slot that it has reached is held to the hyperperiod first, then
// its spare totals, and then its totals row by row, before any product is taken.
#![tactic(auto)]

mod course;
mod kept;
mod steady;

ghost use Rattle.std.specs.Prelude.{◌≡◌, ℕ};
ghost use Rattle.rules.specs.Bus as bus;
ghost use Rattle.rules.specs.Planner.{Off};
ghost use Rattle.rules.specs.Calls.{file_ask};
ghost use Rattle.numbers.specs.Decides.{Decides};
ghost use Rattle.time.specs.Time.{Timed};
ghost use Rattle.verdict.specs.Analysed.{Accepted};
ghost use Rattle.planner.specs.State.{planner_of, fresh_planner, slot_of, late_at, stage_after};
ghost use Rattle.planner.specs.Answers.{StepAnswer, StandingsAnswer, PlanAnswer};
ghost use Rattle.planner.specs.Analysed.{Usable, SteppedOn, StandingsOn, PlannedOn};

pub use kept::move_on;
use table::{Reason, Refusal, Table};
use time::Time;
use verdict::Analysis;

// Due, with the number of the next interval, or finished.
#[derive(Clone, Copy)]
pub enum Stage {
    Due(u64),
    Finished,
}

// A stage, and beside it the totals, one for each row.
#[derive(Clone, Copy)]
pub struct Planner {
    pub stage: Stage,
    pub totals: [u64; Table::ROWS],
}

// ---- stages

// The first slot of the interval due, or h when finished; h also where the interval due is none of the table's.
fn slot_reached(stage: Stage, time: Time) -> u64
    requires { (t : bus.Table) × Timed t time }
    ensures { (t : bus.Table) → Timed t time → result ≡ slot_of t stage }
{
    match stage {
        Stage::Due(k) => time.start_of(k),
        Stage::Finished => time.hyper,
    }
}

// The interval due is none of the table's: no interval starts at h.
fn is_late(stage: Stage, slot: u64, hyper: u64) -> bool
    ensures { result ≡ late_at stage slot hyper }
{
    match stage {
        Stage::Due(_) => slot == hyper,
        Stage::Finished => false,
    }
}

// The stage after an interval that ends at slot `end`: finished after the last, and else the next is due.
fn stage_after(end: u64, hyper: u64, next: u64) -> Stage
    ensures { result ≡ stage_after end hyper next }
{
    if end == hyper {
        return Stage::Finished;
    }
    Stage::Due(next)
}

impl Planner {
    // Interval 0 due, and all totals 0.
    pub fn fresh() -> Planner
        ensures { result ≡ fresh_planner }
    {
        Planner {
            stage: Stage::Due(0),
            totals: [0; Table::ROWS],
        }
    }

    // The state is off, on an admitted table, where it has reached `slot`.
    fn is_off(self, slot: u64, table: Analysis) -> bool
        requires { (t : bus.Table) × Accepted t table × (slot ≡ slot_of t self.stage) }
        ensures { (t : bus.Table) → Accepted t table → slot ≡ slot_of t self.stage → Decides (Off t (planner_of self)) result }
    {
        let stage = self.stage;
        let hyper = table.outline.time.hyper;
        let rows = table.outline.rows;
        let sets = table.outline.sets;
        if is_late(stage, slot, hyper) {
            return true;
        }
        if !steady::spare_clear(rows, &self.totals) {
            return true;
        }
        !steady::keeps_step(
            rows,
            hyper,
            slot,
            &table.rate,
            sets,
            &table.outline.words,
            &self.totals,
        )
    }

    // The standings on an analysed table, 0 past the last row: each row's total × h, less its share at the slot reached in units of 1 / h.
    pub fn standings_on(
        self,
        analysed: Result<Analysis, Refusal>,
    ) -> Result<[i64; Table::ROWS], Refusal>
        requires { Usable analysed }
        ensures { StandingsOn analysed self result }
    {
        let table = analysed?;
        let time = table.outline.time;
        let reached = slot_reached(self.stage, time);
        if self.is_off(reached, table) {
            return Err(Refusal::from(Reason::OffState));
        }
        let rows = table.outline.rows;
        Ok(steady::standings(rows, time.hyper, reached, &table.rate, &self.totals))
    }

    // The standings on a file's table.
    pub fn standings(self, file: &[u8]) -> Result<[i64; Table::ROWS], Refusal>
        ensures { StandingsAnswer (file_ask file.now) self result }
    {
        self.standings_on(verdict::analyse(file))
    }

    // One interval of an analysed table: writes its words to the front of `out` and hands back the planner moved on by it.
    pub fn step_on(
        mut self,
        analysed: Result<Analysis, Refusal>,
        out: &mut [u64],
    ) -> Result<Planner, Refusal>
        requires { Usable analysed }
        ensures { SteppedOn analysed self result out.old out.new }
    {
        let table = analysed?;
        let time = table.outline.time;
        let slot = slot_reached(self.stage, time);
        if self.is_off(slot, table) {
            return Err(Refusal::from(Reason::OffState));
        }
        let Stage::Due(k) = self.stage else {
            return Err(Refusal::from(Reason::HasFinished));
        };
        let end = time.next_end(slot);
        if out.len() < (end - slot) as usize {
            return Err(Refusal::from(Reason::ShortOutput));
        }
        let after = course::plan_intervals(table, false, slot, end, self.totals, out);
        self = Planner {
            stage: stage_after(end, time.hyper, k + 1),
            totals: after,
        };
        Ok(self)
    }

    // One interval of a file's table.
    pub fn step(mut self, file: &[u8], out: &mut [u64]) -> Result<Planner, Refusal>
        ensures { StepAnswer (file_ask file.now) self result out.old out.new }
    {
        self.step_on(verdict::analyse(file), out)
    }
}

// The whole plan of an analysed table: the words of every interval, each at its own slots, as a fresh planner's steps write them.
pub fn plan_on(
    analysed: Result<Analysis, Refusal>,
    plain: bool,
    plan: &mut [u64],
) -> Result<(), Refusal>
    requires { Usable analysed }
    ensures { PlannedOn analysed result plan.old plan.new }
{
    let table = analysed?;
    let hyper = table.outline.time.hyper;
    if plan.len() < hyper as usize {
        return Err(Refusal::from(Reason::ShortOutput));
    }
    let fresh = [0u64; Table::ROWS];
    course::plan_intervals(table, plain, 0, hyper, fresh, plan);
    Ok(())
}

// The whole plan of a file's table.
pub fn whole_plan(file: &[u8], plan: &mut [u64]) -> Result<(), Refusal>
    ensures { PlanAnswer (file_ask file.now) result plan.old plan.new }
{
    plan_on(verdict::analyse(file), false, plan)
}

// The same by the plain planner (#114).
pub fn plain_plan(file: &[u8], plan: &mut [u64]) -> Result<(), Refusal>
    ensures { PlanAnswer (file_ask file.now) result plan.old plan.new }
{
    plan_on(verdict::analyse(file), true, plan)
}
