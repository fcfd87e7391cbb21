// Scans of the rooms (01, "Shapes to change": "`HashMap`: a scan of the node room. `BinaryHeap`: one waiting entry a node").
//
// That there is none is told by n and not by an Option: so the definitions count (`first_of`, `next_from` of rooms), and callers go on from the answer.
#![tactic(auto)]

ghost use Rattle.std.specs.Prelude.{◌≡◌, ◌-◌, ◌≤◌};
ghost use Rattle.scans.specs.Laws.{Idle};
ghost use Rattle.rooms.specs.Records.{entry_at};
ghost use Rattle.rooms.specs.Scans.{first_of, is_at, waits, sooner, next_from, busy};

use equal_points::{same_point, same_word};
use rooms::{Entry, Feet, get_entry, get_feet};

// More nodes than a room can tell apart: a parent's number is a u32.
const NODES: usize = 4294967296;

// Passes over nodes from `from` on that are not at a point, by their x alone: most nodes differ there. In a room that has not n nodes it passes over none.
// The room's length is judged once, so that the loop need not. (Not one with `next_waiting`: they promise other things of other rooms.)
fn next_near(nodes: &[u8], from: usize, n: usize, q: Feet) -> usize
    requires { from ≤ n }
    ensures { (from ≤ result) × (result ≤ n) × (first_of (is_at nodes.now q) from (n - from) ≡ first_of (is_at nodes.now q) result (n - result)) }
{
    let border = n % NODES;
    if (border < from) | (nodes.len() < 64 * border) {
        return from;
    }
    (from..border)
        .find(|i| same_word(fields::u64_at(nodes, 64 * *i), q.x))
        .unwrap_or(border)
}

// The first node at a point among the nodes `from` to n - 1; if none is, n; if `from` is past n, `from`.
pub fn seek(nodes: &[u8], from: usize, n: usize, q: Feet) -> usize
    ensures { result ≡ first_of (is_at nodes.now q) from (n - from) }
{
    // `i` goes on to where the quick pass stops, so it is no range's
    let mut i = from;
    while i < n {
        if same_point(get_feet(nodes, i), q) {
            return i;
        }
        i = next_near(nodes, i + 1, n, q);
    }
    i
}

// Whether one waiting entry comes before another.
fn before(a: Entry, b: Entry) -> bool
    ensures { result ≡ sooner a b }
{
    let mine = floats::float_of(a.estimate);
    let other = floats::float_of(b.estimate);
    (mine < other) | ((mine == other) & (a.order < b.order))
}

// Passes over nodes from `from` on that do not wait: most nodes are closed. In a room that has not n entries it passes over none.
fn next_waiting(front: &[u8], from: usize, n: usize) -> usize
    requires { from ≤ n }
    ensures { Idle (entry_at front.now) from result × (result ≤ n) }
{
    let border = n % NODES;
    if (border < from) | (front.len() < 24 * border) {
        return from;
    }
    (from..border)
        .find(|i| fields::u64_at(front, 24 * *i + 16) == 1)
        .unwrap_or(border)
}

// The first node that waits among the nodes `from` to n - 1; if none does, n; if `from` is past n, `from`.
pub fn first_waiting(front: &[u8], from: usize, n: usize) -> usize
    ensures { result ≡ first_of (λ k. waits (entry_at front.now k)) from (n - from) }
{
    if n <= from {
        return from;
    }
    let i = next_waiting(front, from, n);
    (i..n)
        .find(|k| get_entry(front, *k).waiting == 1)
        .unwrap_or(n)
}

// The next of n nodes to be closed, among those from `low` on; if none of them waits, n.
pub fn pick(front: &[u8], low: usize, n: usize) -> usize
    ensures { result ≡ next_from low n front.now }
{
    // the least entry so far, which is none's while `at` is n
    let mut least = Entry {
        estimate: 0,
        order: 0,
        waiting: 0,
    };
    let mut at = n;
    let from = low.min(n);
    // `i` goes on to where the quick pass stops, so it is no range's
    let mut i = next_waiting(front, from, n);
    while i < n {
        let e = get_entry(front, i);
        if e.waiting == 1 && ((at == n) | before(e, least)) {
            at = i;
            least = e;
        }
        i = next_waiting(front, i + 1, n);
    }
    at
}

// Whether node j is not at rest: it is open, or waits.
fn is_busy(nodes: &[u8], front: &[u8], j: usize) -> bool
    ensures { result ≡ busy nodes.now front.now j }
{
    (rooms::get_node(nodes, j).closed == 0) | (get_entry(front, j).waiting == 1)
}

// The first node that is not at rest among the nodes `from` to n - 1; if none is, n; if `from` is past n, `from`. What is at rest stays so: a search
// need not look at the nodes before it again.
pub fn first_busy(nodes: &[u8], front: &[u8], from: usize, n: usize) -> usize
    ensures { result ≡ first_of (busy nodes.now front.now) from (n - from) }
{
    (from..n)
        .find(|j| is_busy(nodes, front, *j))
        .unwrap_or(from.max(n))
}
