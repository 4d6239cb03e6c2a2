// An overlap set, and where its rows meet: the segments that all of them use (#102). A refusal with 14 names such a set by its number.
ghost use Rattle.std.specs.Prelude.{◌≡◌, not, ◌||◌, ◌≤◌};
ghost use Rattle.numbers.specs.Finite.{every};
ghost use Rattle.numbers.specs.Lists.{at};
ghost use Rattle.numbers.specs.Word.{bit, word, Stretch};
ghost use Rattle.rules.specs.Bounds.{max_elements, max_rows};
ghost use Rattle.rules.specs.Calls.{Crowded};
ghost use Rattle.table.specs.Refusal.{number, place};
ghost use Rattle.meeting.specs.Told.{rows_of, segments_of};

use table::{Reason, Refusal, Table};

// The word of a set's rows, and that of the segments that all of them use.
#[derive(Clone, Copy)]
pub struct Crowd {
    pub rows: u64,
    pub segments: u32,
}

// The word of all segments of a board.
fn all_segments(elements: usize) -> u32
    requires { elements ≤ max_elements }
    ensures { Stretch 0 elements result }
{
    numbers::stretch(0, elements) as u32
}

// The segments that are in the word of every row of the set, of as many rows.
fn common(segments: &[u32; Table::ROWS], rows: usize, set: u64, elements: usize) -> u32
    requires { (elements ≤ max_elements) × (rows ≤ max_rows) }
    ensures { result ≡ word elements (λ s. every rows (λ i. not (bit set i) || bit (at segments.now i) s)) }
{
    let mut left = all_segments(elements);
    for i in 0..rows {
        if (set >> i) % 2 == 1 {
            left &= segments[i];
        }
    }
    left
}

// The rows of set number `k` of a file's table and the segments that all of them use, or a refusal of 1 to 9, 18, 10 and 11, or 32 for a
// set past the last.
pub fn of_set(file: &[u8], k: usize) -> Result<Crowd, Refusal>
    ensures { Crowded file.now k (number result) (place result) (rows_of result) (segments_of result) }
{
    let found = pasted::given(file)?;
    let outline = outline::outline_of(&found.columns)?;
    if k >= outline.sets {
        return Err(Refusal::from(Reason::NoRow));
    }
    let rows = outline.words[k];
    let segments = ring::lay_segments(&found.columns);
    Ok(Crowd {
        rows,
        segments: common(&segments, found.columns.rows, rows, found.columns.elements),
    })
}
