// Where two rows of a table meet: the segments of the ring that both routes use (#102).
#![tactic(auto)]

mod crowd;

ghost use Rattle.rules.specs.Calls.{Met};
ghost use Rattle.table.specs.Refusal.{number, place};
ghost use Rattle.meeting.specs.Told.{word_of};

pub use crowd::{Crowd, of_set};
use table::{Reason, Refusal};

// The word of the segments that rows `i` and `j` of a file's table share, bit s - 1 for segment s, or a refusal of 1 to 9, or 32 for a row
// past the last.
pub fn meet(file: &[u8], i: usize, j: usize) -> Result<u32, Refusal>
    ensures { Met file.now i j (number result) (place result) (word_of result) }
{
    let found = decoding::decode(file)?;
    if i >= found.columns.rows {
        return Err(Refusal::at(Reason::NoRow, 0));
    }
    if j >= found.columns.rows {
        return Err(Refusal::at(Reason::NoRow, 1));
    }
    Ok(ring::shared(&found.columns, i, j))
}
