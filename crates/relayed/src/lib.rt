// The verdict, the list of sets and the planner's calls with a relay (#113): those on the table split at it. The split table is looked at
// as any other, and has a cut. Totals, standings and bits are those of split rows.
#![tactic(auto)]

ghost use Rattle.rules.specs.TableFile.{file_table};
ghost use Rattle.rules.specs.Relay.{split};
ghost use Rattle.rules.specs.Refusals.{relayed_line_checks, relayed_checks};
ghost use Rattle.rules.specs.Calls.{Judged, Listed, relayed_ask, relayed_line_ask};
ghost use Rattle.outline.specs.Outlined.{Outlined};
ghost use Rattle.verdict.specs.Analysed.{Analysed};
ghost use Rattle.outline.specs.Listed.{count};
ghost use Rattle.table.specs.Refusal.{number, place};
ghost use Rattle.verdict.specs.Verdict.{cut_of, other_of, interval_of, hyper_of, load_of, sets_of};
ghost use Rattle.planner.specs.Answers.{StepAnswer, StandingsAnswer, PlanAnswer};

use outline::Outline;
use planner::Planner;
use table::{Refusal, Table};
use verdict::{Admitted, Analysis};

// ---- the analysis, the verdict and the sets

// The analysis of a file's table split at a relay, or the first refusal of 1 to 9, 18, 27, 28, 11, 13 and 14.
pub fn analyse(file: &[u8], relay: usize) -> Result<Analysis, Refusal>
    ensures { Analysed (relayed_checks file.now relay) (split (file_table file.now) relay) result }
{
    let split = relay::split_file(file, relay)?;
    verdict::analysis_of(&split)
}

// Whether the bus can carry the table of a file with a relay.
pub fn judge(file: &[u8], relay: usize) -> Result<Admitted, Refusal>
    ensures { Judged (relayed_ask file.now relay) (number result) (place result)
        (cut_of result) (other_of result) (interval_of result) (hyper_of result) (load_of result) (sets_of result) }
{
    verdict::verdict_of(analyse(file, relay))
}

// What a file's table split at a relay is on the line, or the first refusal of 1 to 9, 18, 27, 28 and 11.
fn outline_file(file: &[u8], relay: usize) -> Result<Outline, Refusal>
    ensures { Outlined (relayed_line_checks file.now relay) (split (file_table file.now) relay) result }
{
    let table = relay::split_file(file, relay)?;
    outline::outline_of(&table)
}

// The list of the overlap sets of a file's table with a relay, written to the front of `out`: sets of split rows.
pub fn list_of_sets(file: &[u8], relay: usize, out: &mut [u64]) -> Result<u32, Refusal>
    ensures { Listed (relayed_line_ask file.now relay) out.old out.new (number result) (place result) (count result) }
{
    outline::list_on(outline_file(file, relay), out)
}

// ---- the plan

// One interval of a file's table with a relay.
pub fn step(p: Planner, file: &[u8], relay: usize, out: &mut [u64]) -> Result<Planner, Refusal>
    ensures { StepAnswer (relayed_ask file.now relay) p result out.old out.new }
{
    p.step_on(analyse(file, relay), out)
}

// The standings on a file's table with a relay.
pub fn standings(p: Planner, file: &[u8], relay: usize) -> Result<[i64; Table::ROWS], Refusal>
    ensures { StandingsAnswer (relayed_ask file.now relay) p result }
{
    p.standings_on(analyse(file, relay))
}

// The whole plan of a file's table with a relay.
pub fn whole_plan(file: &[u8], relay: usize, plan: &mut [u64]) -> Result<(), Refusal>
    ensures { PlanAnswer (relayed_ask file.now relay) result plan.old plan.new }
{
    planner::plan_on(analyse(file, relay), false, plan)
}
