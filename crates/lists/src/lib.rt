// Lists of the moves of one element (#101): their reader, from a list file to numbers in memory, and their writer.
#![tactic(auto)]

ghost use Rattle.std.specs.Prelude.{◌≡◌, ℕ, [], ◌∷◌, ◌++◌, ◌+◌, ◌*◌, ◌<◌, ◌≤◌, length, take, IfOk};
ghost use Rattle.std.proofs.lemmas.List.Edits.{sets};
ghost use Rattle.numbers.specs.Decides.{Decides};
ghost use Rattle.numbers.specs.Lists.{each};
ghost use Rattle.rules.specs.Bounds.{max_slots};
ghost use Rattle.rules.specs.TableFile.{mark};
ghost use Rattle.rules.specs.ElementList as rules;
ghost use Rattle.rules.specs.ElementList.{
  move,
  list_mark,
  list_header,
  entry_size,
  entry_numbers,
  file_entry,
  memory_entry,
  in_memory,
  in_file,
  file_head,
  file_list,
};
ghost use Rattle.rules.specs.Refusals.{Answers, wrong_list, wrong_entry, list_file_checks, list_memory_checks};
ghost use Rattle.rules.specs.Calls.{lent, ListRead, ListWritten};
ghost use Rattle.table.specs.Refusal.{why, number, place};
ghost use Rattle.lists.specs.Entries.{IsHead, IsEntry, entry_of, Leaves, Gives, Fit, told, head_checks};
ghost use Rattle.lists.specs.Entries.{element_of, hyper_of, entries_of};

use table::{Reason, Refusal, Table, put16, read16};

// What stands before the entries: the element, the hyperperiod, and how many entries follow.
#[derive(Clone, Copy)]
pub struct Head {
    pub element: usize,
    pub hyper: usize,
    pub entries: usize,
}

impl Head {
    // bytes before the first entry, bytes an entry, numbers an entry in memory
    pub const BYTES: usize = 8;

    pub const ENTRY_BYTES: usize = 4;

    pub const ENTRY_NUMBERS: usize = 3;
    // a list has at most two entries a slot
    pub const ENTRIES: usize = 2 * Table::SLOTS;
    // the mark's last byte, and where the version, the element and the hyperperiod stand
    pub const MARK: u8 = b'E';

    pub const VERSION: u16 = 1;

    pub const VERSION_AT: usize = 3;

    pub const ELEMENT_AT: usize = 5;

    pub const HYPER_AT: usize = 6;

    // What a file that is long enough says of its list.
    pub fn of(file: &[u8]) -> Head
        requires { list_header ≤ length file.now }
        ensures { IsHead (file_list file.now) result }
    {
        Head {
            element: usize::from(file[Head::ELEMENT_AT]),
            hyper: usize::from(read16(file, Head::HYPER_AT)),
            entries: (file.len() - Head::BYTES) / Head::ENTRY_BYTES,
        }
    }
}

// One move: its slot, its row, and its way.
#[derive(Clone, Copy)]
pub struct Entry {
    pub slot: u16,
    pub row: u16,
    pub way: u16,
}

impl Entry {
    pub const RECEIVE: u16 = 0;

    pub const SEND: u16 = 1;
}

// ---- entries

// Entry `k` of a list file that holds it.
fn entry_in(file: &[u8], k: usize) -> Entry
    requires { list_header + entry_size * (k + 1) ≤ length file.now }
    ensures { IsEntry (file_entry file.now k) result }
{
    let at = Head::BYTES + Head::ENTRY_BYTES * k;
    Entry {
        slot: read16(file, at),
        row: u16::from(file[at + 2]),
        way: u16::from(file[at + 3]),
    }
}

// Entry `k` of a slice of numbers that holds it.
fn entry_of(numbers: &[u16], k: usize) -> Entry
    requires { entry_numbers * (k + 1) ≤ length numbers.now }
    ensures { IsEntry (memory_entry numbers.now k) result }
{
    let at = Head::ENTRY_NUMBERS * k;
    Entry {
        slot: numbers[at],
        row: numbers[at + 1],
        way: numbers[at + 2],
    }
}

// The numbers of an entry, from `at` on.
pub fn put_numbers(entry: Entry, at: usize, out: &mut [u16])
    requires { at + entry_numbers ≤ length out.old }
    ensures { out.new ≡ sets out.old at (in_memory (entry_of entry)) }
{
    out[at] = entry.slot;
    out[at + 1] = entry.row;
    out[at + 2] = entry.way;
}

// The bytes of an entry, from `at` on.
pub fn put_bytes(entry: Entry, at: usize, out: &mut [u8])
    requires { (at + entry_size ≤ length out.old) × (entry.row < 256) × (entry.way < 256) }
    ensures { out.new ≡ sets out.old at (in_file (entry_of entry)) }
{
    put16(entry.slot, at, out);
    out[at + 2] = entry.row as u8;
    out[at + 3] = entry.way as u8;
}

// The bytes before the first entry.
pub fn put_head(element: u8, hyper: u16, out: &mut [u8])
    requires { list_header ≤ length out.old }
    ensures { out.new ≡ sets out.old 0 (file_head element hyper) }
{
    table::put_start(Head::MARK, Head::VERSION, out);
    out[Head::ELEMENT_AT] = element;
    put16(hyper, Head::HYPER_AT, out);
}

// ---- checks

fn in_range(x: u64, most: u64) -> bool
    ensures { Decides ((1 ≤ x) × (x ≤ most)) result }
{
    (1..=most).contains(&x)
}

// Check 30.
fn bounds_fault(element: u64, hyper: u64) -> Result<(), Reason>
    ensures { Answers (wrong_list (told element hyper (λ k. move 0 0 0)) ∷ []) (why result) 0 }
{
    if !in_range(element, Table::ELEMENTS as u64) {
        return Err(Reason::WrongList);
    }
    if !in_range(hyper, Table::SLOTS as u64) {
        return Err(Reason::WrongList);
    }
    Ok(())
}

// What an entry leaves to those after it: twice its slot and its way, and 1, from which on theirs stand. Nothing where check 31 applies to
// the entry itself, to which those before it leave what stands from `least` on.
fn least_after(hyper: u64, least: u64, entry: Entry) -> Option<u64>
    ensures { Leaves hyper least (entry_of entry) result }
{
    if u64::from(entry.slot) >= hyper {
        return None;
    }
    if entry.row as usize >= Table::ROWS {
        return None;
    }
    if entry.way > Entry::SEND {
        return None;
    }
    let rank = 2 * u64::from(entry.slot) + u64::from(entry.way);
    if rank < least {
        return None;
    }
    Some(rank + 1)
}

// Check 31 of `entries` entries, wherever they stand.
fn check_entries<F: Fn(usize) -> Entry>(entry: F, hyper: u64, entries: usize) -> Result<(), Refusal>
    requires bound { hyper ≤ max_slots }
    requires there { (k : ℕ) → k < entries → F.pre entry k }
    ensures { (g : ℕ → rules.Entry) → Gives (F.post entry) entries g
        → Answers (each entries (λ k. wrong_entry (told 0 hyper g) k ∷ [])) (number result) (place result) }
{
    let mut least: u64 = 0;
    for k in 0..entries {
        let Some(next) = least_after(hyper, least, entry(k)) else {
            // it can stand past all that a list has room for
            return Err(Refusal {
                reason: Reason::WrongEntry,
                place: k as u32,
            });
        };
        least = next;
    }
    Ok(())
}

// What a list file says of its list, where checks 1, 2, 3, 6 and 30 pass.
fn head_in(file: &[u8]) -> Result<Head, Reason>
    ensures answers { Answers (head_checks file.now) (why result) 0 }
    ensures passed { IfOk result (λ h. IsHead (file_list file.now) h) }
{
    if file.len() < Head::BYTES {
        return Err(Reason::ShortFile);
    }
    if !table::begins(file, Head::MARK) {
        return Err(Reason::WrongMark);
    }
    if read16(file, Head::VERSION_AT) != Head::VERSION {
        return Err(Reason::WrongVersion);
    }
    if (file.len() - Head::BYTES) % Head::ENTRY_BYTES != 0 {
        return Err(Reason::WrongLength);
    }
    let head = Head::of(file);
    bounds_fault(head.element as u64, head.hyper as u64)?;
    Ok(head)
}

// The same, where check 31 passes too.
fn check_file(file: &[u8]) -> Result<Head, Refusal>
    ensures answers { Answers (list_file_checks file.now) (number result) (place result) }
    ensures passed { IfOk result (λ h. IsHead (file_list file.now) h) }
{
    let head = head_in(file)?;
    check_entries(|k| entry_in(file, k), head.hyper as u64, head.entries)?;
    Ok(head)
}

// Checks 6, 30 and 31 of a slice of numbers.
fn check_numbers(element: u64, hyper: u64, numbers: &[u16]) -> Result<(), Refusal>
    ensures { Answers (list_memory_checks element hyper numbers.now) (number result) (place result) }
{
    if numbers.len() % Head::ENTRY_NUMBERS != 0 {
        return Err(Refusal::from(Reason::WrongLength));
    }
    bounds_fault(element, hyper)?;
    check_entries(
        |k| entry_of(numbers, k),
        hyper,
        numbers.len() / Head::ENTRY_NUMBERS,
    )
}

// ---- the reader

// The numbers of all entries of a list file that holds them, at the front of `out`.
fn put_all_numbers(file: &[u8], entries: usize, out: &mut [u16])
    requires { (list_header + entry_size * entries ≤ length file.now) × (entry_numbers * entries ≤ length out.old) }
    ensures { out.new ≡ lent (each entries (λ k. in_memory (file_entry file.now k))) out.old }
{
    for k in 0..entries {
        put_numbers(entry_in(file, k), Head::ENTRY_NUMBERS * k, out);
    }
}

// The reader: checks 1, 2, 3, 6, 30, 31, then 17. Fills the front of `out` with three numbers an entry.
pub fn read(file: &[u8], out: &mut [u16]) -> Result<Head, Refusal>
    ensures { ListRead file.now out.old out.new
        (number result) (place result) (element_of result) (hyper_of result) (entries_of result) }
{
    let head = check_file(file)?;
    if out.len() / Head::ENTRY_NUMBERS < head.entries {
        return Err(Refusal::from(Reason::ShortOutput));
    }
    put_all_numbers(file, head.entries, out);
    Ok(head)
}

// ---- the writer

// The bytes of all entries of a slice of numbers that are right, past the header.
// (Beside the reader's loop: where entries come from, how they are put and where the first stands differ, so that `for` alone is common.)
fn put_all_bytes(numbers: &[u16], entries: usize, out: &mut [u8])
    requires { (entry_numbers * entries ≤ length numbers.now) × (list_header + entry_size * entries ≤ length out.old)
        × Fit entries (memory_entry numbers.now) }
    ensures { out.new ≡
        lent (take list_header out.old ++ each entries (λ k. in_file (memory_entry numbers.now k)))
        out.old }
{
    for k in 0..entries {
        put_bytes(
            entry_of(numbers, k),
            Head::BYTES + Head::ENTRY_BYTES * k,
            out,
        );
    }
}

// The writer: checks 6, 30, 31, then 17. Fills the front of `out` with the bytes of the list file.
pub fn write(element: u64, hyper: u64, numbers: &[u16], out: &mut [u8]) -> Result<(), Refusal>
    ensures { ListWritten element hyper numbers.now out.old out.new (number result) (place result) }
{
    check_numbers(element, hyper, numbers)?;
    let entries = numbers.len() / Head::ENTRY_NUMBERS;
    if out.len() < Head::BYTES + Head::ENTRY_BYTES * entries {
        return Err(Refusal::from(Reason::ShortOutput));
    }
    put_head(element as u8, hyper as u16, out);
    put_all_bytes(numbers, entries, out);
    Ok(())
}
