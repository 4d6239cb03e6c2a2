// Ways in a network, by words. A network has nodes and arcs; every arc carries an amount within its bounds, and as much leaves every
// node as enters it. One more is brought from one node to another by a way: arcs ahead that carry one more, and arcs back that carry one
// less.
//
// Source: document 000, section 4.3, finds the loads of an interval as a circulation with lower bounds, by the method of Ford and
// Fulkerson. Changed against it:
// - The nodes stand in a line and the arcs are of two kinds: rows, which carry 0 or 1, and sets, each from a node to the one before it.
// - What can be taken is four words: the rows that can carry one more or one less, and the sets. So are the nodes reached and those
//   gone on from, and to each node the rows that are toggled on the way there. There are no amounts and no queue, and no way is
//   walked back: an exclusive or toggles it.
// - Where no way is found, the nodes reached are a closed set, whose arcs all stand at a bound. So an arc into it carries the most that it
//   can.
ghost use Rattle.std.specs.Prelude.{◌≡◌, Bool, true, ◌≢◌, ℕ, ◌+◌, ◌-◌, ◌<◌, ◌≤◌, length};
ghost use Rattle.numbers.specs.Lists.{at};
ghost use Rattle.numbers.specs.Word.{bit};
ghost use Rattle.loads.specs.Network.{nodes_most, Net, Circulation};
ghost use Rattle.loads.specs.Way.{Wired, Narrow, Shown, Visited, Entered, Sought};

use table::Table;

// A line of so many sets has one node more.
pub const NODES: usize = Table::ELEMENTS + 1;

// What can be taken: `up` and `down` are the rows that can carry one more and one less, `more` the sets that can carry one more, by the
// node where they start, and `less` the sets that can carry one less, by the node where they end.
#[derive(Clone, Copy)]
pub struct Arcs {
    pub up: u64,
    pub down: u64,
    pub more: u64,
    pub less: u64,
}

// Whether there is a way, and the rows that are toggled on it.
#[derive(Clone, Copy)]
pub struct Outcome {
    pub found: bool,
    pub rows: u64,
}

// The first digit in which two words differ.
pub fn pick(v: u64, w: u64) -> usize
    requires { v ≢ w }
    ensures { (result < 64) × (bit v result ≢ bit w result) × ((j : ℕ) → j < result → bit v j ≡ bit w j) }
{
    u64::trailing_zeros(v ^ w) as usize
}

// The nodes seen, with node p, which is reached by a way that toggles w unless it was seen before.
fn reach(p: usize, w: u64, seen: u64, by: &mut [u64; NODES]) -> u64
    requires { (p < nodes_most) × (length by.old ≡ nodes_most) }
    ensures { (length by.new ≡ nodes_most) × Entered true p w seen result (at by.old) (at by.new) }
{
    if (seen >> p) % 2 == 1 {
        return seen;
    }
    by[p] = w;
    seen | (1u64 << p)
}

// The nodes seen, with the far ends of the rows in a word, each by the way and the row itself.
fn visit(far: &[u8; Table::ROWS], rows: u64, way: u64, seen: u64, by: &mut [u64; NODES]) -> u64
    requires { ((i : ℕ) → bit rows i ≡ true → at far.now i < nodes_most) × (length by.old ≡ nodes_most) }
    ensures { (length by.new ≡ nodes_most)
        × Visited 64 (bit rows) (at far.now) way seen result (at by.old) (at by.new) }
{
    let mut all = seen;
    let mut done: u64 = 0;
    while done != rows {
        let i = pick(rows, done);
        let p = far[i] as usize;
        all = reach(p, way | (1u64 << i), all, by);
        done = done | (1u64 << i);
    }
    all
}

// The nodes seen, with node p beside u where the word `sets` has u: the set between the two can carry one more, or one less.
fn step(sets: u64, u: usize, p: usize, way: u64, seen: u64, by: &mut [u64; NODES]) -> u64
    requires { (u < nodes_most) × (bit sets u ≡ true → p < nodes_most) × (length by.old ≡ nodes_most) }
    ensures { (length by.new ≡ nodes_most)
        × Entered (bit sets u) p way seen result (at by.old) (at by.new) }
{
    if (sets >> u) % 2 == 0 {
        return seen;
    }
    reach(p, way, seen, by)
}

// Whether one more can be brought from node s to node t, and the rows that are toggled on the way. Row i leads from node tail[i] to
// node head[i]; out[v] are the rows that start at node v, and into[v] those that end there.
pub fn find_way(
    tail: &[u8; Table::ROWS],
    head: &[u8; Table::ROWS],
    out: &[u64; NODES],
    into: &[u64; NODES],
    arcs: Arcs,
    s: usize,
    t: usize,
) -> Outcome
    requires { (n : ℕ) × (K : ℕ) × Wired n K (at tail.now) (at head.now) (at out.now) (at into.now) × Narrow K arcs
        × (s ≤ K) × (t ≤ K) }
    ensures { (n K : ℕ) (G : Net) (may : ℕ → Bool) (x : ℕ → ℕ)
        → Wired n K (at tail.now) (at head.now) (at out.now) (at into.now)
        → Narrow K arcs → s ≤ K → t ≤ K
        → Shown n K G may x (at tail.now) (at head.now) arcs → Circulation G x
        → Sought n G may x s t result.rows result.found }
{
    let mut by = [0u64; NODES];
    let mut seen = 1u64 << s;
    let mut done: u64 = 0;
    while seen != done {
        if (seen >> t) % 2 == 1 {
            return Outcome {
                found: true,
                rows: by[t],
            };
        }
        let u = pick(seen, done);
        let way = by[u];
        let ahead = visit(head, out[u] & arcs.up, way, seen, &mut by);
        let back = visit(tail, into[u] & arcs.down, way, ahead, &mut by);
        // no set starts at node 0: the node before it is not looked at
        let lower = step(arcs.more, u, u.wrapping_sub(1), way, back, &mut by);
        seen = step(arcs.less, u, u + 1, way, lower, &mut by);
        done = done | (1u64 << u);
    }
    Outcome {
        found: (seen >> t) % 2 == 1,
        rows: by[t],
    }
}
