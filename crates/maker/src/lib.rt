// The list of one element's moves, made from a table file and a plan (#101): in memory, or as the bytes of a list file.
#![tactic(auto)]

mod moves;

ghost use Rattle.std.specs.Prelude.{◌≡◌, List, [], ℕ, ◌+◌, ◌*◌, ◌≤◌, length};
ghost use Rattle.rules.specs.Bounds.{max_slots};
ghost use Rattle.rules.specs.Bus as bus;
ghost use Rattle.rules.specs.TableFile.{file_table};
ghost use Rattle.rules.specs.Loads.{hyperperiod};
ghost use Rattle.rules.specs.ElementList.{list_header, entry_size, list_numbers, list_bytes, moves_list};
ghost use Rattle.rules.specs.Refusals.{Answers};
ghost use Rattle.rules.specs.Calls.{one_ring_ask, ListMade};
ghost use Rattle.table.specs.Sound.{Sound};
ghost use Rattle.table.specs.Columns.{table_of};
ghost use Rattle.maker.specs.Words.{LowestBad};
ghost use Rattle.table.specs.Refusal.{number, place};
ghost use Rattle.maker.specs.Finding.{early_checks, Finds, Fits, hyper_of, entries_of};

use lists::Head;
use moves::Picks;
use table::{Columns, Reason, Refusal, no_columns};

// What a list is written from: the element's moves, and how many there are.
#[derive(Clone, Copy)]
struct Source {
    picks: Picks,
    entries: usize,
}

// 29, 19, and 17 for a short plan. `slot` is the lowest of the first `hyper` whose word is bad, and `hyper` where none is.
fn fault(
    elements: usize,
    element: u64,
    slot: usize,
    words: usize,
    hyper: usize,
) -> Result<(), Refusal>
    requires { hyper ≤ max_slots }
    ensures { (t : bus.Table) (plan : List ℕ) → elements ≡ t.elements → words ≡ length plan → hyper ≡ hyperperiod t
        → LowestBad t plan hyper slot → Answers (early_checks [] t plan element) (number result) (place result) }
{
    if element == 0 {
        return Err(Refusal::from(Reason::WrongElement));
    }
    if element > elements as u64 {
        return Err(Refusal::from(Reason::WrongElement));
    }
    if slot < hyper {
        return Err(Refusal::at(Reason::BadWord, slot));
    }
    if words < hyper {
        return Err(Refusal::from(Reason::ShortOutput));
    }
    Ok(())
}

// What is found of a sound table of one ring, whose hyperperiod is known, and a plan.
fn find_on(table: &Columns, hyper: usize, plan: &[u64], element: u64) -> Result<Source, Refusal>
    requires { Sound (table_of table.now) × (hyper ≡ hyperperiod (table_of table.now)) × (hyper ≤ max_slots) × (table.now.rings ≡ 1) }
    ensures { Finds [] (table_of table.now) plan.now element result }
{
    let routes = ring::lay_segments(table);
    let slot = moves::lowest_bad(table.rows, &routes, plan, hyper);
    fault(table.elements, element, slot, plan.len(), hyper)?;
    let picks = Picks {
        hyper,
        into: moves::ending_at(table.rows, &table.second, element as usize),
        from: moves::ending_at(table.rows, &table.first, element as usize),
    };
    Ok(Source {
        picks,
        entries: picks.count(plan),
    })
}

// The same of a file's table, after the verdict's. A table of one ring alone is taken.
fn find_in(file: &[u8], plan: &[u64], element: u64) -> Result<Source, Refusal>
    ensures { Finds (one_ring_ask file.now).checks (file_table file.now) plan.now element result }
{
    if decoding::has_other_mark(file) {
        return Err(Refusal::from(Reason::WrongMark));
    }
    let admitted = verdict::judge(file)?;
    let mut table = no_columns();
    decoding::decode_into(file, &mut table).unwrap();
    find_on(&table, admitted.hyper as usize, plan, element)
}

// The same, then 17 where an output of `room` places is too short for `head` and, for each entry, `size`.
fn find_for(
    file: &[u8],
    plan: &[u64],
    element: u64,
    room: usize,
    head: usize,
    size: usize,
) -> Result<Source, Refusal>
    requires { (head ≤ list_header) × (size ≤ entry_size) }
    ensures { Fits (one_ring_ask file.now) plan.now element room
        (head + size * (moves_list (file_table file.now) element plan.now).entries) result }
{
    let found = find_in(file, plan, element)?;
    if room < head + size * found.entries {
        return Err(Refusal::from(Reason::ShortOutput));
    }
    Ok(found)
}

// What is made: how many slots the plan has, and how many entries the list.
#[derive(Clone, Copy)]
pub struct Making {
    pub hyper: usize,
    pub entries: usize,
}

// The list in memory, at the front of `out`: three numbers an entry. The verdict's refusals, with 2 for a table of two rings, then 29, 19,
// 17.
pub fn make(file: &[u8], plan: &[u64], element: u64, out: &mut [u16]) -> Result<Making, Refusal>
    ensures { ListMade (one_ring_ask file.now) plan.now element list_numbers out.old out.new
        (number result) (place result) (hyper_of result) (entries_of result) }
{
    let found = find_for(file, plan, element, out.len(), 0, Head::ENTRY_NUMBERS)?;
    found.picks.put_numbers(plan, out);
    Ok(Making {
        hyper: found.picks.hyper,
        entries: found.entries,
    })
}

// The list's file, at the front of `out`, likewise.
pub fn make_file(file: &[u8], plan: &[u64], element: u64, out: &mut [u8]) -> Result<Making, Refusal>
    ensures { ListMade (one_ring_ask file.now) plan.now element list_bytes out.old out.new
        (number result) (place result) (hyper_of result) (entries_of result) }
{
    let found = find_for(
        file,
        plan,
        element,
        out.len(),
        Head::BYTES,
        Head::ENTRY_BYTES,
    )?;
    lists::put_head(element as u8, found.picks.hyper as u16, out);
    found.picks.put_bytes(plan, out);
    Ok(Making {
        hyper: found.picks.hyper,
        entries: found.entries,
    })
}
