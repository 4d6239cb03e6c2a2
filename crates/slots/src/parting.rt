// Stretches of neighbouring slots that hold the same rows: one is parted where a row's load is used up inside, and at the end the word of
// each is spread to its slots.
ghost use Rattle.std.specs.Prelude.{◌≡◌, ℕ, ◌≤◌, ◌<◌, length};
ghost use Rattle.numbers.specs.Lists.{at};
ghost use Rattle.rules.specs.Bounds.{max_slots};
ghost use Rattle.stretches.specs.Stretches.{most_stretches, Tiles, Parted, Repeated, Spread};

use table::Table;

// Each row parts one stretch at most.
pub const STRETCHES: usize = Table::ROWS + 1;

// Parts stretch `k` before slot `middle`: the slots from there on become stretch `new`.
pub fn part(
    end: &mut [u16; STRETCHES],
    last: &mut [u8; STRETCHES],
    after: &mut [u8; STRETCHES],
    k: usize,
    middle: usize,
    new: usize,
)
    requires { (length end.old ≡ most_stretches) × (length last.old ≡ most_stretches) × (length after.old ≡ most_stretches)
        × (k < most_stretches) × (new < most_stretches) × (middle ≤ max_slots) }
    ensures { Parted k middle new end.old last.old after.old
        end.new last.new after.new }
{
    end[new] = end[k];
    last[new] = last[k];
    after[new] = after[k];
    end[k] = middle as u16;
    after[k] = new as u8;
}

// Writes the word at slot `from` to the slots after it, up to slot `to`.
fn repeat(from: usize, to: usize, words: &mut [u64])
    requires { (from < to) × (to ≤ length words.old) }
    ensures { Repeated from to words.old words.new }
{
    let word = words[from];
    for s in from + 1..to {
        words[s] = word;
    }
}

// Writes the word of each stretch, which stands at its first slot, to all of its slots.
pub fn spread(end: &[u16; STRETCHES], after: &[u8; STRETCHES], slots: usize, words: &mut [u64])
    requires { ((of begin : ℕ → ℕ) × Tiles slots of begin end.now after.now) × (slots ≤ length words.old) }
    ensures { (of begin : ℕ → ℕ) → Tiles slots of begin end.now after.now
        → Spread slots of begin words.old words.new }
{
    let mut k: usize = 0;
    let mut s: usize = 0;
    // s goes on from stretch to stretch, so no range has its places
    while s < slots {
        let to = usize::from(end[k]);
        repeat(s, to, words);
        k = usize::from(after[k]);
        s = to;
    }
}
