// The slots of one interval (document 01, "Loads of one interval, and its slots"; source document 000, section 4.1, Algorithm 1, POBase).
//
// POBase sorts the rows by first end. Here the elements of the line are walked in order, and the rows that start at each are taken by row
// number: the same order, with no sorted copy. Chains, laid once for a table, lead from each element to its rows. As in POBase a slot is
// free for a row just when its last second end is at most the row's first end. For a slot that no row has that is 0 here and 1 there;
// elements start at 1, so either will do.
//
// Slots are scanned by stretches: neighbouring slots that hold the same rows. A row takes a stretch whole, or parts it where its load is
// used up inside, so there is at most one stretch more than rows, however long the interval is. Of the rows that start at one element each
// scans on from where the row before it stopped: every slot up to there has a last end past the element.
#![tactic(auto)]

mod parting;
mod plain;

ghost use Rattle.std.specs.Prelude.{◌≡◌, ℕ, ◌+◌, ◌≤◌, ◌<◌, length, set};
ghost use Rattle.numbers.specs.Lists.{at};
ghost use Rattle.rules.specs.Bounds.{max_slots};
ghost use Rattle.sets.specs.Chained.{ChainedRows};
ghost use Rattle.placing.specs.Filled.{FilledSlots};

use parting::STRETCHES;
pub use plain::fill_plain;
use sets::HEADS;
use table::Table;

// Clears the word of the stretch that is all slots.
fn clear(slots: usize, words: &mut [u64])
    requires { slots ≤ length words.old }
    ensures { (0 < slots → words.new ≡ set words.old 0 0)
        × (slots ≡ 0 → words.new ≡ words.old) }
{
    if 0 < slots {
        words[0] = 0;
    }
}

// Writes the words of an interval of `slots` slots to the front of `words`, for any rows on a line of the elements 1 to `top` that are
// chained so. For each stretch `end` has the slot after its last, `after` the stretch that follows and `last` the last second end there;
// its word stands at its first slot. The scan has come to stretch k, which begins at slot s. Row i leaves stretch i + 1 of one it parts.
pub fn fill<'a>(
    second: &'a [u8; Table::ROWS],
    head: &'a [u8; HEADS],
    next: &'a [u8; Table::ROWS],
    load: &'a [u16; Table::ROWS],
    top: usize,
    slots: usize,
    words: &mut [u64],
)
    requires { ((n : ℕ) × (first : ℕ → ℕ) × ChainedRows n first (at second.now) top head.now next.now)
        × (slots ≤ max_slots) × (slots ≤ length words.old) }
    ensures { (n : ℕ) (first : ℕ → ℕ)
        → ChainedRows n first (at second.now) top head.now next.now
        → FilledSlots n first (at second.now) (at load.now) slots words.old words.new }
{
    let mut end = [0u16; STRETCHES];
    let mut last = [0u8; STRETCHES];
    let mut after = [0u8; STRETCHES];
    end[0] = slots as u16;
    clear(slots, words);
    for element in 1..top {
        let mut k: usize = 0;
        let mut s: usize = 0;
        let mut r = head[element];
        while r != 0 {
            let i = (r - 1) as usize;
            let row = 1u64 << i;
            let mut left = table::slots_at(load, i) as usize;
            // s goes on from stretch to stretch, so no range has its places
            'slots: while s < slots {
                if left == 0 {
                    break 'slots;
                }
                let to = usize::from(end[k]);
                if element < usize::from(last[k]) {
                    s = to;
                    k = usize::from(after[k]);
                } else {
                    let word = words[s];
                    if left < to - s {
                        words[s + left] = word;
                        words[s] = word | row;
                        parting::part(&mut end, &mut last, &mut after, k, s + left, i + 1);
                        last[k] = second[i];
                        s += left;
                        k = i + 1;
                        left = 0;
                    } else {
                        words[s] = word | row;
                        last[k] = second[i];
                        left -= to - s;
                        s = to;
                        k = usize::from(after[k]);
                    }
                }
            }
            r = next[i];
        }
    }
    parting::spread(&end, &after, slots, words);
}
