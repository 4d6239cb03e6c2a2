// The verdict, a step and the whole plan with a limit for each of two parties (#108): 23 before all else, and 21 and 22 between the
// outline's refusals and those of the bound. One ring alone is taken. Limits refuse, and choose nothing: the words are those without.
#![tactic(auto)]

mod limits;

ghost use Rattle.std.specs.Prelude.{◌≡◌, ◌||◌, ◌≤◌, ltb};
ghost use Rattle.rules.specs.Parties.{max_limit};
ghost use Rattle.rules.specs.TableFile.{file_table};
ghost use Rattle.rules.specs.Refusals.{limited_checks};
ghost use Rattle.rules.specs.Calls.{limited_ask, Judged};
ghost use Rattle.table.specs.Sound.{Sound};
ghost use Rattle.table.specs.Columns.{table_of};
ghost use Rattle.table.specs.Refusal.{number, place};
ghost use Rattle.limited.specs.Limits.{labelled};
ghost use Rattle.verdict.specs.Analysed.{Analysed};
ghost use Rattle.verdict.specs.Verdict.{cut_of, other_of, interval_of, hyper_of, load_of, sets_of};
ghost use Rattle.planner.specs.Answers.{StepAnswer, PlanAnswer};
ghost use Rattle.limited.specs.Limited.{within_checks};

pub use limits::Limits;
use planner::Planner;
use table::{Columns, Reason, Refusal, Table};
use verdict::{Admitted, Analysis};

// ---- the analysis and the verdict

// The analysis of a table with labels and one ring: 10 and 11, then 21 and 22, then 13 and 14.
fn analysis_within(
    table: &Columns,
    label: &[u16; Table::ROWS],
    limits: Limits,
) -> Result<Analysis, Refusal>
    requires { Sound (table_of table.now) × (table.now.rings ≡ 1) × (limits.ours ≤ max_limit) × (limits.theirs ≤ max_limit) }
    ensures { Analysed (within_checks (labelled (table_of table.now) label.now) limits.ours limits.theirs)
        (table_of table.now) result }
{
    let outline = outline::outline_of(table)?;
    let time = outline.time;
    let mut rate = [0u16; Table::ROWS];
    let light = verdict::put_rates(
        table.rows,
        time.hyper,
        time.interval,
        &table.cost,
        &table.period,
        &mut rate,
    );
    let segments = ring::lay_segments(table);
    limits::kept_within(
        table.elements,
        table.rows,
        time.hyper,
        &rate,
        &segments,
        label,
        limits,
    )?;
    let weighing = verdict::weigh(
        table.rows,
        light,
        outline.top,
        time,
        &outline.first,
        &outline.second,
        &rate,
    )?;
    Ok(Analysis {
        outline,
        load: weighing.load,
        rate,
    })
}

// A limit is above 1,000 thousandths.
fn are_wrong(limits: Limits) -> bool
    ensures { result ≡ (ltb max_limit limits.ours || ltb max_limit limits.theirs) }
{
    limits.ours > Limits::MOST || limits.theirs > Limits::MOST
}

// The analysis of a file's table within limits, or the first refusal.
pub fn analyse(file: &[u8], limits: Limits) -> Result<Analysis, Refusal>
    ensures { Analysed (limited_checks file.now limits.ours limits.theirs) (file_table file.now) result }
{
    if are_wrong(limits) {
        return Err(Refusal::from(Reason::WrongLimit));
    }
    let found = pasted::given_one_ring(file)?;
    analysis_within(&found.columns, &found.labels, limits)
}

// Whether the bus can carry the table of a file within limits.
pub fn judge(file: &[u8], limits: Limits) -> Result<Admitted, Refusal>
    ensures { Judged (limited_ask file.now limits.ours limits.theirs) (number result) (place result)
        (cut_of result) (other_of result) (interval_of result) (hyper_of result) (load_of result) (sets_of result) }
{
    verdict::verdict_of(analyse(file, limits))
}

// ---- the plan

// One interval of a file's table within limits.
pub fn step(p: Planner, file: &[u8], limits: Limits, out: &mut [u64]) -> Result<Planner, Refusal>
    ensures { StepAnswer (limited_ask file.now limits.ours limits.theirs) p result
        out.old out.new }
{
    p.step_on(analyse(file, limits), out)
}

// The whole plan of a file's table within limits.
pub fn whole_plan(file: &[u8], limits: Limits, plan: &mut [u64]) -> Result<(), Refusal>
    ensures { PlanAnswer (limited_ask file.now limits.ours limits.theirs) result
        plan.old plan.new }
{
    planner::plan_on(analyse(file, limits), false, plan)
}
