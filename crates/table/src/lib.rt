// A table: its bounds, its columns in memory, and the checks that its reader and its writer share.
#![tactic(auto)]

mod checks;
mod columns;
mod marks;
mod refusals;
mod versions;

ghost use Rattle.std.specs.Prelude.{◌≡◌, ◌+◌, ◌*◌, ◌<◌, ◌≤◌, length};
ghost use Rattle.std.proofs.lemmas.List.Edits.{sets};
ghost use Rattle.rules.specs.Bounds.{max_elements, max_rows, max_rings, max_slots};
ghost use Rattle.rules.specs.TableFile.{header_size, row_numbers, write16};
ghost use Rattle.table.specs.Rows.{IsHead};

pub use checks::{row_fault, size_fault};
pub use columns::{Columns, end_at, no_columns, row_at, slots_at, way_at};
pub use marks::{begins, is_no_mark, is_plain, is_strange, mark_byte, put_start, rings_of};
pub use refusals::{Reason, Refusal, number, place};
pub use versions::{is_unknown, label_in, last_of, row_bytes, row_place, version_of, way_in};

// A table: how many elements the ring has, and how many rows.
#[derive(Clone, Copy)]
pub struct Table {
    pub elements: usize,
    pub rows: usize,
}

impl Table {
    pub const ELEMENTS: usize = 32;

    pub const ROWS: usize = 64;

    pub const SLOTS: usize = 4096;

    // one each way
    pub const RINGS: usize = 2;

    // bytes before the first row, of a row that all files have, of a label in version 2, of a direction, and numbers a row in memory
    pub const HEADER: usize = 7;

    pub const ROW_BYTES: usize = 6;

    pub const LABEL_BYTES: usize = 2;

    pub const WAY_BYTES: usize = 1;

    pub const ROW_NUMBERS: usize = 5;

    // bytes of the longest file
    pub const FILE_BYTES: usize = Table::HEADER
        + (Table::ROW_BYTES + Table::LABEL_BYTES) * Table::ROWS;
    // the header: the mark, of one ring or of two, and where the version, the elements and the rows stand
    pub const MARK: [u8; 3] = [b'R', b'B', b'T'];

    pub const BOARD: [u8; 3] = [b'R', b'B', b'2'];

    pub const VERSION_1: u64 = 1;

    pub const VERSION_2: u64 = 2;

    pub const VERSION_AT: usize = 3;

    pub const ELEMENTS_AT: usize = 5;

    pub const ROWS_AT: usize = 6;

    // What a file that has a header says of its table.
    pub fn of(file: &[u8]) -> Table
        requires { header_size ≤ length file.now }
        ensures { IsHead file.now result }
    {
        Table {
            elements: wide(file[Table::ELEMENTS_AT]) as usize,
            rows: wide(file[Table::ROWS_AT]) as usize,
        }
    }

    // That the bounds are document 01's.
    pub fn elements_limit() -> usize
        ensures { result ≡ max_elements }
    {
        Table::ELEMENTS
    }

    pub fn rows_limit() -> usize
        ensures { result ≡ max_rows }
    {
        Table::ROWS
    }

    pub fn rings_limit() -> usize
        ensures { result ≡ max_rings }
    {
        Table::RINGS
    }

    pub fn slots_limit() -> usize
        ensures { result ≡ max_slots }
    {
        Table::SLOTS
    }

    pub fn header_size() -> usize
        ensures { result ≡ header_size }
    {
        Table::HEADER
    }

    pub fn row_numbers() -> usize
        ensures { result ≡ row_numbers }
    {
        Table::ROW_NUMBERS
    }
}

// One periodic transfer, with its direction: 0 where there is one ring; and its label: 0 in version 1, and where there are two.
#[derive(Clone, Copy)]
pub struct Row {
    pub cost: u16,
    pub period: u16,
    pub first: u16,
    pub second: u16,
    pub way: usize,
    pub label: u16,
}

pub(crate) fn wide(x: u8) -> u16
    ensures { (result ≡ x) × (result < 256) }
{
    x as u16
}

// The 16 bits at byte `at`, low byte first.
pub fn read16(file: &[u8], at: usize) -> u16
    requires { at + 1 < length file.now }
    ensures { result ≡ Rattle.rules.specs.TableFile.read16 file.now at }
{
    wide(file[at]) + 256 * wide(file[at + 1])
}

// 16 bits to byte `at`, low byte first.
pub fn put16(x: u16, at: usize, out: &mut [u8])
    requires { at + 1 < length out.old }
    ensures { out.new ≡ sets out.old at (write16 x) }
{
    out[at] = (x % 256) as u8;
    out[at + 1] = (x / 256) as u8;
}
