// The two versions of a file: which it is, and how many bytes a row has. A table with two rings has version 1 alone.
ghost use Rattle.std.specs.Prelude.{◌≡◌, ◌+◌, ◌*◌, ◌≤◌, length};
ghost use Rattle.numbers.specs.Decides.{Decides};
ghost use Rattle.rules.specs.Bounds.{max_rows};
ghost use Rattle.rules.specs.TableFile.{header_size, row_size, version, way_in, label_in, last_of};
ghost use Rattle.rules.specs.Refusals.{wrong_version};
ghost use Rattle.table.specs.Rows.{longest_row};

use crate::{Table, read16};

// Check 3.
pub fn is_unknown(rings: usize, version: u64) -> bool
    ensures { Decides (wrong_version rings version).applies result }
{
    if version == Table::VERSION_1 {
        return false;
    }
    if version != Table::VERSION_2 {
        return true;
    }
    rings == Table::RINGS
}

// Bytes a row.
pub fn row_bytes(rings: usize, version: u64) -> usize
    ensures { (result ≡ row_size rings version) × (result ≤ longest_row) }
{
    if rings == Table::RINGS {
        return Table::ROW_BYTES + Table::WAY_BYTES;
    }
    if version == Table::VERSION_2 {
        return Table::ROW_BYTES + Table::LABEL_BYTES;
    }
    Table::ROW_BYTES
}

// The version of a file that has a header.
pub fn version_of(file: &[u8]) -> u64
    requires { header_size ≤ length file.now }
    ensures { result ≡ version file.now }
{
    read16(file, Table::VERSION_AT) as u64
}

// The first byte of row `i`, in a file of this version with so many rings.
pub fn row_place(rings: usize, version: u64, i: usize) -> usize
    requires { i ≤ max_rows }
    ensures { result ≡ header_size + row_size rings version * i }
{
    Table::HEADER + row_bytes(rings, version) * i
}

// The direction that a row's last number tells, with so many rings.
pub fn way_in(rings: usize, last: u16) -> usize
    ensures { result ≡ way_in rings last }
{
    if rings == Table::RINGS {
        last as usize
    } else {
        0
    }
}

// The label that it tells.
pub fn label_in(rings: usize, last: u16) -> u16
    ensures { result ≡ label_in rings last }
{
    if rings == Table::RINGS { 0 } else { last }
}

// The last number that tells them.
pub fn last_of(rings: usize, way: u16, label: u16) -> u16
    ensures { result ≡ last_of rings way label }
{
    if rings == Table::RINGS { way } else { label }
}
