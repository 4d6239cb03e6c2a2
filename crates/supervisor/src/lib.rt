// The functions for the supervisor, a C program: verdict, its values, shared segments, list of sets, whole plan and raised file, and
// verdict and whole plan with limits and with a relay, each answering 256 × number + place; and the list of one element
// (include/ringplan.h).
#![tactic(auto)]

ghost use Rattle.std.specs.Prelude.{◌≡◌, ◌≤◌, length};
ghost use Rattle.rules.specs.Refusals.{last_number};
ghost use Rattle.rules.proofs.Small.{last_place};
ghost use Rattle.table.specs.Refusal.{number_of, number, place};
ghost use Rattle.rules.specs.Calls.{Call, lent, file_ask, limited_ask, relayed_ask, c_answer};
ghost use Rattle.supervisor.specs.ToC.{VerdictToC, values, value_count, values_checks, Valued, ValuesToC, SharedToC, SetsToC, PlanToC, RaiseToC};
ghost use Rattle.supervisor.specs.ToC.{list_refusal, ListToC};

use limited::Limits;
use lists::Head;
use table::{Reason, Refusal};
use verdict::Admitted;

// What is answered as one number: 256 × the refusal's number + its place, 0 where nothing is refused.
fn told<T>(answer: &Result<T, Refusal>) -> u32
    requires { (number answer.now ≤ last_number) × (place answer.now ≤ last_place) }
    ensures { result ≡ c_answer (number answer.now) (place answer.now) }
{
    256 * table::number(answer) + table::place(answer)
}

// Whether the bus can carry the table of a file.
#[unsafe(no_mangle)]
pub extern "C" fn ring_verdict(file: &[u8]) -> u32
    ensures { VerdictToC (file_ask file.now) result }
{
    told(&verdict::judge(file))
}

// ---- the values of an admitted table

// How many values there are.
const VALUES: usize = 6;

// The values, written to the front of `out` in the order in which C gets them.
fn write_values(out: &mut [u32], table: Admitted)
    requires { value_count ≤ length out.old }
    ensures { out.new ≡ lent (values table.cut table.other table.interval table.hyper table.load table.sets) out.old }
{
    out[0] = table.cut;
    out[1] = table.other;
    out[2] = table.interval;
    out[3] = table.hyper;
    out[4] = table.load;
    out[5] = table.sets;
}

// The values of an admitted table in `out`, or the verdict's refusal, or 17.
fn fill_values(file: &[u8], out: &mut [u32]) -> Result<(), Refusal>
    ensures { Call (values_checks file.now (length out.old)) (number result) (place result)
        (Valued file.now out.old out.new) (out.new ≡ out.old) }
{
    let admitted = verdict::judge(file)?;
    if out.len() < VALUES {
        return Err(Refusal::from(Reason::ShortOutput));
    }
    write_values(out, admitted);
    Ok(())
}

// Fills in what the verdict returns of an admitted table.
#[unsafe(no_mangle)]
pub extern "C" fn ring_values(file: &[u8], out: &mut [u32]) -> u32
    ensures { ValuesToC file.now out.old out.new result }
{
    told(&fill_values(file, out))
}

// ---- where two rows meet

// Fills in the word of the segments that two rows share.
#[unsafe(no_mangle)]
pub extern "C" fn ring_shared(file: &[u8], i: usize, j: usize, word: &mut u32) -> u32
    ensures { SharedToC file.now i j word.old word.new result }
{
    let found = meeting::meet(file, i, j);
    let answer = told(&found);
    if let Ok(shared) = found {
        *word = shared;
    }
    answer
}

// ---- lists and plans

// Fills in the list of the overlap sets of a table.
#[unsafe(no_mangle)]
pub extern "C" fn ring_sets(file: &[u8], sets: &mut [u64]) -> u32
    ensures { SetsToC file.now sets.old sets.new result }
{
    told(&outline::list_of_sets(file, sets))
}

// Fills the whole plan of an admitted table.
#[unsafe(no_mangle)]
pub extern "C" fn ring_plan(file: &[u8], plan: &mut [u64]) -> u32
    ensures { PlanToC (file_ask file.now) plan.old plan.new result }
{
    told(&planner::whole_plan(file, plan))
}

// Fills it by the plain planner (#114): the same words.
#[unsafe(no_mangle)]
pub extern "C" fn ring_plain_plan(file: &[u8], plan: &mut [u64]) -> u32
    ensures { PlanToC (file_ask file.now) plan.old plan.new result }
{
    told(&planner::plain_plan(file, plan))
}

// ---- with limits of two parties (#108)

// Whether the bus can carry the table of a file within limits.
#[unsafe(no_mangle)]
pub extern "C" fn ring_verdict_limited(file: &[u8], ours: u32, theirs: u32) -> u32
    ensures { VerdictToC (limited_ask file.now ours theirs) result }
{
    told(&limited::judge(file, Limits { ours, theirs }))
}

// Fills the whole plan of a table that is admitted within limits.
#[unsafe(no_mangle)]
pub extern "C" fn ring_plan_limited(file: &[u8], ours: u32, theirs: u32, plan: &mut [u64]) -> u32
    ensures { PlanToC (limited_ask file.now ours theirs) plan.old plan.new result }
{
    told(&limited::whole_plan(file, Limits { ours, theirs }, plan))
}

// ---- with a relay (#113)

// Whether the bus can carry the table of a file with a relay.
#[unsafe(no_mangle)]
pub extern "C" fn ring_verdict_relayed(file: &[u8], relay: u32) -> u32
    ensures { VerdictToC (relayed_ask file.now relay) result }
{
    told(&relayed::judge(file, relay as usize))
}

// Fills the whole plan of a table that is admitted with a relay: the words are of split rows.
#[unsafe(no_mangle)]
pub extern "C" fn ring_plan_relayed(file: &[u8], relay: u32, plan: &mut [u64]) -> u32
    ensures { PlanToC (relayed_ask file.now relay) plan.old plan.new result }
{
    told(&relayed::whole_plan(file, relay as usize, plan))
}

// ---- light rows raised (#111)

// The file of the table with its light rows' costs raised to the least that passes, as long as the file.
#[unsafe(no_mangle)]
pub extern "C" fn ring_raise(file: &[u8], out: &mut [u8]) -> u32
    ensures { RaiseToC file.now out.old out.new result }
{
    told(&raising::raise(file, out))
}

// ---- the list of one element

// A refusal as one number. A place may be a slot, and what isn't refused is how many bytes were written: both are below 2^32.
fn refusal(refused: Refusal) -> u64
    ensures { result ≡ list_refusal (number_of refused.reason) refused.place }
{
    4294967296 * refused.reason.number() as u64 + refused.place as u64
}

// Fills in the list file of one element's moves in a plan (#101).
#[unsafe(no_mangle)]
pub extern "C" fn ring_element_list(file: &[u8], plan: &[u64], element: u32, list: &mut [u8]) -> u64
    ensures { ListToC file.now plan.now element list.old list.new result }
{
    match maker::make_file(file, plan, element as u64, list) {
        Ok(made) => (Head::BYTES + Head::ENTRY_BYTES * made.entries) as u64,
        Err(refused) => refusal(refused),
    }
}
