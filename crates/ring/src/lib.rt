// From ring to line: the elements a row goes through, each ring's cut, and the rows' ends on the line. Rows are routes between two elements
// here, one way or the other: what they cost, when they come and which file they came from is not known. What runs counterclockwise is
// mirrored first, and then all is as on the other ring.
#![tactic(auto)]

ghost use Rattle.std.specs.Prelude.{◌≡◌, not, ◌&&◌, ℕ, ◌+◌, ◌*◌, ◌≤◌, ◌<◌, eqb, MatchOption};
ghost use Rattle.numbers.specs.Lists.{at};
ghost use Rattle.numbers.specs.Word.{bit};
ghost use Rattle.rules.specs.Bounds.{max_elements, max_rings};
ghost use Rattle.rules.specs.Bus as bus;
ghost use Rattle.rules.specs.Line as line;
ghost use Rattle.table.specs.Columns.{ByRow};
ghost use Rattle.ring.specs.Route as route;
ghost use Rattle.ring.specs.Route.{Element, Shows};
ghost use Rattle.ring.specs.Rows.{cut_of, Renumbered, RoutesOf, Routed, rings_of, segments_of};

use table::{Columns, Table};

// The rows' ends on the line, 0 past the last row.
#[derive(Clone, Copy)]
pub struct Line {
    pub first: [u8; Table::ROWS],
    pub second: [u8; Table::ROWS],
}

// How many segments lie from element `from` clockwise to element `to`.
#[tactic(auto, unfolding(rules::specs::Bus::steps))]
fn steps(m: usize, from: usize, to: usize) -> usize
    requires { (m ≤ max_elements) × Element m from × Element m to }
    ensures { (result ≡ bus.steps m from to) × (result < m) }
{
    if from <= to { to - from } else { to + m - from }
}

// The elements that the route from element `from` clockwise to element `to` goes through: bit e shows element e, or bit m + e where the
// route has passed from element m to element 1.
fn through(m: usize, from: usize, to: usize) -> u64
    requires { (m ≤ max_elements) × Element m from × Element m to }
    ensures { Shows m result (bus.route_through m from to) }
{
    numbers::stretch(from + 1, from + steps(m, from, to))
}

// The segments that this route uses, shown in the same way.
#[tactic(auto, using(crate::proofs::Cut::uses_shows))]
fn uses(m: usize, from: usize, to: usize) -> u64
    requires { (m ≤ max_elements) × Element m from × Element m to }
    ensures { Shows m result (bus.route_uses m from to) }
{
    numbers::stretch(from, from + steps(m, from, to))
}

// The word of these segments: bit s - 1 for segment s.
pub fn segments(m: usize, from: usize, to: usize) -> u32
    requires { (m ≤ max_elements) × Element m from × Element m to }
    ensures { result ≡ route.segments m from to }
{
    let word = uses(m, from, to);
    (((word | (word >> m)) >> 1usize) & numbers::stretch(0, m)) as u32
}

// Element `e`'s number on the line that begins at `cut`.
#[tactic(auto, unfolding(crate::specs::Route::line_element))]
fn line_element(m: usize, cut: usize, e: usize) -> usize
    requires { (m ≤ max_elements) × Element m cut × Element m e }
    ensures { (result ≡ route.line_element m cut e) × (result ≤ m) }
{
    steps(m, cut, e) + 1
}

// The same for a second end, which at the cut stands at the end of the line.
#[tactic(auto, unfolding(crate::specs::Route::line_end))]
fn line_end(m: usize, cut: usize, e: usize) -> usize
    requires { (m ≤ max_elements) × Element m cut × Element m e }
    ensures { (result ≡ route.line_end m cut e) × (result ≤ m + 1) }
{
    if e == cut {
        m + 1
    } else {
        line_element(m, cut, e)
    }
}

// Element `e` in the numbers of ring `d`, or an element of that ring in the board's. A direction stays a number: `on_both` counts with it.
#[tactic(auto, unfolding(rules::specs::Bus::mirror))]
pub fn mirrored(m: usize, d: usize, e: usize) -> usize
    requires { (m ≤ max_elements) × Element m e }
    ensures { (result ≡ bus.mirror m d e) × Element m result }
{
    if d == 0 { e } else { m + 1 - e }
}

// Whether a row of direction `way` goes through element `e`.
pub fn goes_through(m: usize, way: usize, from: usize, to: usize, e: usize) -> bool
    requires { (m ≤ max_elements) × Element m from × Element m to × Element m e }
    ensures { result ≡ bus.route_through m (bus.mirror m way from) (bus.mirror m way to) (bus.mirror m way e) }
{
    let start = mirrored(m, way, from);
    let on = steps(m, start, mirrored(m, way, e));
    0 < on && on < steps(m, start, mirrored(m, way, to))
}

// The elements that a row of direction `way` goes through, in the numbers of ring `d`; none where it runs on the other ring.
#[tactic(auto, using(crate::proofs::Cut::shows_on))]
fn through_row(m: usize, d: usize, way: usize, from: usize, to: usize) -> u64
    requires { (m ≤ max_elements) × Element m from × Element m to }
    ensures { Shows m result (λ e. eqb way d && bus.route_through m (bus.mirror m d from) (bus.mirror m d to) e) }
{
    if way != d {
        return 0;
    }
    through(m, mirrored(m, d, from), mirrored(m, d, to))
}

// The elements that some row of ring `d` goes through: bit e shows element e of that ring's numbers.
fn through_rows(table: &Columns, d: usize) -> u64
    requires { Routed table.now }
    ensures { (e : ℕ) → Element table.now.elements e → not (bit result e)
        ≡ line.clear (rings_of table.now table.now.rows) d (bus.mirror table.now.elements d e) }
{
    let mut word: u64 = 0;
    for i in 0..table.rows {
        word |= through_row(
            table.elements,
            d,
            table::way_at(&table.way, table.rings, i),
            table::end_at(&table.first, i),
            table::end_at(&table.second, i),
        );
    }
    word | (word >> table.elements)
}

// The cut of ring `d` in its own numbers, if it has one: the lowest element with no row through it.
pub fn find_cut(table: &Columns, d: usize) -> Option<usize>
    requires { Routed table.now }
    ensures { MatchOption result (line.cut (rings_of table.now table.now.rows) d ≡ table.now.elements + 1)
        (λ e. (e ≡ line.cut (rings_of table.now table.now.rows) d) × (e ≤ table.now.elements)) }
{
    let word = through_rows(table, d);
    // each element before it has a row through it, which the word shows as a one
    let e = u64::trailing_ones(word >> 1) as usize + 1;
    if e > table.elements {
        return None;
    }
    Some(e)
}

// The word of the board's segments that a row uses: what a route uses counterclockwise, the route back uses clockwise.
#[tactic(auto, using(crate::proofs::Words::row_clockwise, crate::proofs::Words::row_counterclockwise))]
fn row_segments(m: usize, way: usize, from: usize, to: usize) -> u32
    requires { (m ≤ max_elements) × Element m from × Element m to }
    ensures { result ≡ route.row_segments m way from to }
{
    if way == 0 {
        segments(m, from, to)
    } else {
        segments(m, to, from)
    }
}

// The word of row `i`'s segments.
fn segments_at(table: &Columns, i: usize) -> u32
    requires { (n : ℕ) × RoutesOf table.now n × (i < n) }
    ensures { result ≡ segments_of table.now i }
{
    row_segments(
        table.elements,
        table::end_at(&table.way, i),
        table::end_at(&table.first, i),
        table::end_at(&table.second, i),
    )
}

// The word of every row's segments, 0 past the last row, for those who ask of many rows.
pub fn lay_segments(table: &Columns) -> [u32; Table::ROWS]
    requires { RoutesOf table.now table.now.rows }
    ensures { ByRow table.now.rows (segments_of table.now) result }
{
    let mut words = [0u32; Table::ROWS];
    for i in 0..table.rows {
        words[i] = segments_at(table, i);
    }
    words
}

// The word of the segments that rows `i` and `j` share: those that are in both words, where both run on one ring.
pub fn shared(table: &Columns, i: usize, j: usize) -> u32
    requires { (n : ℕ) × RoutesOf table.now n × (i < n) × (j < n) }
    ensures { (n : ℕ) → result ≡ bus.shared (rings_of table.now n) i j }
{
    if table::end_at(&table.way, i) != table::end_at(&table.way, j) {
        return 0;
    }
    segments_at(table, i) & segments_at(table, j)
}

// Element `k` of ring `d`'s own line, on the line of both rings.
fn on_both(m: usize, d: usize, k: usize) -> usize
    requires { (m ≤ max_elements) × (d < max_rings) × (k ≤ m + 1) }
    ensures { (result ≡ d * (m + 1) + k) × (result < 256) }
{
    d * (m + 1) + k
}

// Where a row of ring `d` starts whose first end is `e`, on the line of both rings; `cut` is that of its ring.
#[tactic(auto, unfolding(crate::specs::Route::row_element))]
fn row_element(m: usize, d: usize, cut: usize, e: usize) -> usize
    requires { (m ≤ max_elements) × (d < max_rings) × Element m cut × Element m e }
    ensures { (result ≡ route.row_element m d cut e) × (result < 256) }
{
    on_both(m, d, line_element(m, cut, mirrored(m, d, e)))
}

// Where it ends whose second end is `e`.
#[tactic(auto, unfolding(crate::specs::Route::row_end))]
fn row_end(m: usize, d: usize, cut: usize, e: usize) -> usize
    requires { (m ≤ max_elements) × (d < max_rings) × Element m cut × Element m e }
    ensures { (result ≡ route.row_end m d cut e) × (result < 256) }
{
    on_both(m, d, line_end(m, cut, mirrored(m, d, e)))
}

// The cut of ring `d`, of two.
#[tactic(auto, unfolding(crate::specs::Rows::cut_of))]
fn cut_of(clockwise: usize, other: usize, d: usize) -> usize
    ensures { result ≡ cut_of clockwise other d }
{
    if d == 0 { clockwise } else { other }
}

// The rows laid on the line of both rings, which begin at elements `cut` and `other`.
pub fn lay(table: &Columns, cut: usize, other: usize) -> Line
    requires { Routed table.now × Element table.now.elements cut × Element table.now.elements other }
    ensures { Renumbered table.now.elements cut other table.now.rows (at table.now.first) (at table.now.second) (at table.now.way)
        result }
{
    let m = table.elements;
    let mut first = [0u8; Table::ROWS];
    let mut second = [0u8; Table::ROWS];
    for i in 0..table.rows {
        let d = table::way_at(&table.way, table.rings, i);
        let from = cut_of(cut, other, d);
        first[i] = row_element(m, d, from, table::end_at(&table.first, i)) as u8;
        second[i] = row_end(m, d, from, table::end_at(&table.second, i)) as u8;
    }
    Line { first, second }
}
