// The two marks of a file: that of a table with one ring, and that of a board with two.
ghost use Rattle.std.specs.Prelude.{◌≡◌, [], ◌∷◌, ◌≤◌, length};
ghost use Rattle.std.proofs.lemmas.List.Edits.{sets};
ghost use Rattle.numbers.specs.Decides.{Decides};
ghost use Rattle.rules.specs.TableFile.{table_mark, mark, rings_of, mark_of, write16};
ghost use Rattle.rules.specs.Refusals.{unknown_mark};

use crate::{Table, put16};

// Whether bytes begin with a mark that has this last byte. All marks, also that of an element's list, begin alike.
pub fn begins(bytes: &[u8], last: u8) -> bool
    requires { 3 ≤ length bytes.now }
    ensures { Decides (mark bytes.now ≡ 0x52 ∷ 0x42 ∷ last ∷ []) result }
{
    if bytes[0] != Table::MARK[0] {
        return false;
    }
    if bytes[1] != Table::MARK[1] {
        return false;
    }
    bytes[2] == last
}

// The first bytes of a file: its mark, which has this last byte, and its version.
pub fn put_start(last: u8, version: u16, out: &mut [u8])
    requires { 5 ≤ length out.old }
    ensures { out.new ≡ sets out.old 0 (0x52 ∷ 0x42 ∷ last ∷ write16 version) }
{
    out[0] = Table::MARK[0];
    out[1] = Table::MARK[1];
    out[2] = last;
    put16(version, Table::VERSION_AT, out);
}

// Whether a file has the mark of a table with one ring.
pub fn is_plain(file: &[u8]) -> bool
    requires { 3 ≤ length file.now }
    ensures { Decides (mark file.now ≡ table_mark) result }
{
    begins(file, Table::MARK[2])
}

// Check 2.
pub fn is_strange(file: &[u8]) -> bool
    requires { 3 ≤ length file.now }
    ensures { Decides (unknown_mark (mark file.now)).applies result }
{
    if begins(file, Table::MARK[2]) {
        return false;
    }
    if begins(file, Table::BOARD[2]) {
        return false;
    }
    true
}

// How many rings a table has with this mark, or with this file.
pub fn rings_of(file: &[u8]) -> usize
    requires { 3 ≤ length file.now }
    ensures { result ≡ rings_of file.now }
{
    if file[2] == Table::BOARD[2] {
        return Table::RINGS;
    }
    1
}

// Check 2 of a mark by itself, of any length.
pub fn is_no_mark(mark: &[u8]) -> bool
    ensures { Decides (unknown_mark mark.now).applies result }
{
    if mark.len() != 3 {
        return true;
    }
    is_strange(mark)
}

// The last byte of the mark of a table with so many rings.
pub fn mark_byte(rings: usize) -> u8
    ensures { 0x52 ∷ 0x42 ∷ result ∷ [] ≡ mark_of rings }
{
    if rings == Table::RINGS {
        Table::BOARD[2]
    } else {
        Table::MARK[2]
    }
}
