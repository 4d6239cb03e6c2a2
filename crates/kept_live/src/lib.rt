// The live table changed where it is kept (#109), for those who keep one: the supervisor, a C program (include/ringlive.h). Each call
// answers 256 × number + place; an addition's place is the one taken. The rows present are written as a table file from where they are
// kept.
#![tactic(auto)]

ghost use Rattle.std.specs.Prelude.{◌≡◌, ◌≤◌};
ghost use Rattle.rules.specs.Bounds.{max_rows};
ghost use Rattle.rules.specs.Calls.{c_answer};
ghost use Rattle.rules.specs.Refusals.{last_number};
ghost use Rattle.kept_live.specs.InPlace.{NewInPlace, AddInPlace, RemoveInPlace, FileToC};

use live::{Entry, Live};

// Number and place as one number.
fn told(number: u32, place: u32) -> u32
    requires { (number ≤ last_number) × (place ≤ max_rows) }
    ensures { result ≡ c_answer number place }
{
    256 * number + place
}

// A new live table of a ring of `elements`; nothing but zeros where it is refused. What was there is not looked at.
#[unsafe(no_mangle)]
pub extern "C" fn ring_live_new(live: &mut Live, elements: usize) -> u32
    ensures { NewInPlace elements live.new result }
{
    let made = Live::new(elements);
    *live = made.unwrap_or(Live::nothing());
    told(table::number(&made), 0)
}

// A row is put in the lowest free place.
#[unsafe(no_mangle)]
pub extern "C" fn ring_live_add(
    live: &mut Live,
    cost: u16,
    period: u16,
    first: u16,
    second: u16,
    label: u16,
) -> u32
    ensures { AddInPlace live.old cost period first second label live.new result }
{
    let entry = Entry {
        cost: cost,
        period: period,
        first: first,
        second: second,
        label: label,
    };
    let taken = live.add(entry);
    told(table::number(&taken), taken.unwrap_or(0))
}

// The row in place `place` is removed.
#[unsafe(no_mangle)]
pub extern "C" fn ring_live_remove(live: &mut Live, place: usize) -> u32
    ensures { RemoveInPlace live.old place live.new result }
{
    let removed = live.remove(place);
    told(table::number(&removed), 0)
}

// The rows present, written as a table file in the version that is told.
#[unsafe(no_mangle)]
pub extern "C" fn ring_live_file(live: &Live, version: u64, out: &mut [u8]) -> u32
    ensures { FileToC live.now version out.old out.new result }
{
    let written = live::write_file(live, version, out);
    told(table::number(&written), table::place(&written))
}
