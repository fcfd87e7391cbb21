// Whether rooms and counts are those of a search that goes on (02, No. 10: 12 BadProgress "for expansions outside 1 to 4,096, a search already ended, or a state
// unless ..").
//
// `good_progress` answers for every input, and in a time that grows with the retained nodes and the frontier room: the counts are judged first and alone, so that
// no loop goes over nodes that no search can have. It is asked where the request is valid and not too large, and the rooms have the budget's records.
#![tactic(auto)]

ghost use Rattle.std.specs.Prelude.{◌≡◌, true, ◌+◌, ◌-◌, ◌/◌, ◌%◌, ◌≤◌, ◌<◌, leb, length};
ghost use Rattle.rooms.specs.Records.{entry_at};
ghost use Rattle.rooms.specs.Scans.{first_of, waits};
ghost use Rattle.scans.specs.Laws.{Idle};
ghost use Rattle.chains.specs.Chains.{each_below};
ghost use Rattle.progress.specs.Progress.{good_counts, good_node, good_wait, good_progress};
ghost use Rattle.progress.specs.Laws.{good_words};

use rooms::{Counts, Feet, get_entry, get_node};
use world::{Point, Request};

// More nodes than a room can tell apart: a parent's number is a u32.
const NODES: usize = 4294967296;

// Whether the expansions and the counts are within their bounds.
#[tactic(auto, unfolding(crate::specs::Progress::good_counts))]
fn counts_good(budget: u64, c: Counts, expansions: u64) -> bool
    ensures { result ≡ good_counts budget c expansions }
{
    let asked = (1 <= expansions) & (expansions <= 4096);
    let few = (1 <= c.retained)
        & ((c.retained as u64) <= budget)
        & (c.closed <= (c.retained as u64));
    asked & few & (c.pushed < 4294967296) & (c.dropped < 4294967296)
}

// Whether a node with these words is in range, of finite cost, with a movement and marks of 01.
fn words_good(r: Request, feet: Feet, cost: u64, movement: u64, closed: u32, waiting: u64) -> bool
    ensures { result ≡ good_words r feet cost movement closed waiting }
{
    let x = floats::float_of(feet.x);
    let y = floats::float_of(feet.y);
    let z = floats::float_of(feet.z);
    let near = places::in_range(r, Point { x, y, z });
    let finite = floats::finite(floats::float_of(cost));
    near & finite & (movement <= 3) & ((closed <= 1) & (waiting <= 1))
}

// Whether node k is.
#[tactic(auto, unfolding(crate::specs::Progress::good_node))]
fn node_good(r: Request, nodes: &[u8], front: &[u8], k: usize) -> bool
    ensures { result ≡ good_node r nodes.now front.now k }
{
    let node = get_node(nodes, k);
    let waiting = get_entry(front, k).waiting;
    words_good(
        r,
        node.feet,
        node.cost,
        node.label.movement,
        node.closed,
        waiting,
    )
}

// Whether a pattern is no NaN's. Where it is not, `float_of` takes it as it is.
fn is_number(w: u64) -> bool
    ensures { result ≡ leb (w % 0x8000_0000_0000_0000) 0x7ff0_0000_0000_0000 }
{
    w % 0x8000_0000_0000_0000 <= 0x7ff0_0000_0000_0000
}

// A quicker `node_good`, that may say no of a good node: for a room whose length is judged once, as the words are read at offsets.
fn plain_node(r: Request, nodes: &[u8], front: &[u8], k: usize) -> bool
    requires { k < 4294967296 }
    ensures { result ≡ true → good_node r nodes.now front.now k ≡ true }
{
    let at = 64 * k;
    let x = fields::u64_at(nodes, at);
    let y = fields::u64_at(nodes, at + 8);
    let z = fields::u64_at(nodes, at + 16);
    let movement = fields::u64_at(nodes, at + 32);
    let cost = fields::u64_at(nodes, at + 48);
    let closed = fields::u32_at(nodes, at + 60);
    let waiting = fields::u64_at(front, 24 * k + 16);
    if !(is_number(x) & is_number(y) & is_number(z) & is_number(cost)) {
        return false;
    }
    words_good(r, Feet { x, y, z }, cost, movement, closed, waiting)
}

// Passes over good nodes; in rooms that have not n of them over none. The lengths are judged once, so that the loop need not.
fn pass_good(r: Request, nodes: &[u8], front: &[u8], n: usize) -> usize
    ensures { (result ≤ n) × (each_below (good_node r nodes.now front.now) result ≡ true) }
{
    let border = n % NODES;
    if (nodes.len() < 64 * border) | (front.len() < 24 * border) {
        return 0;
    }
    (0..border)
        .find(|k| !plain_node(r, nodes, front, *k))
        .unwrap_or(border)
}

fn nodes_good(r: Request, nodes: &[u8], front: &[u8], n: usize) -> bool
    ensures { result ≡ each_below (good_node r nodes.now front.now) n }
{
    let first = pass_good(r, nodes, front, n);
    (first..n).all(|k| node_good(r, nodes, front, k))
}

// Whether frontier record k does not wait, or is that of one of n nodes, which is open, and has a finite estimate.
#[tactic(auto, unfolding(crate::specs::Progress::good_wait))]
fn wait_good(nodes: &[u8], front: &[u8], n: usize, k: usize) -> bool
    ensures { result ≡ good_wait nodes.now front.now n k }
{
    let node = get_node(nodes, k);
    let entry = get_entry(front, k);
    let estimate = floats::finite(floats::float_of(entry.estimate));
    (entry.waiting != 1) | ((k < n) & (node.closed == 0) & estimate)
}

// Whether none of the four frontier records from k on waits.
fn four_idle(front: &[u8], k: usize) -> bool
    requires { k < 4294967296 }
    ensures { result ≡ true → Idle (entry_at front.now) k (k + 4) }
{
    let at = 24 * k;
    let p = fields::u64_at(front, at + 16);
    let q = fields::u64_at(front, at + 40);
    let r = fields::u64_at(front, at + 64);
    let s = fields::u64_at(front, at + 88);
    (p != 1) & (q != 1) & (r != 1) & (s != 1)
}

// Passes over records that do not wait, four at a time: the room is mostly past the retained nodes. In a room that has not n records it passes over none.
fn pass_idle(front: &[u8], from: usize, n: usize) -> usize
    requires { from ≤ n }
    ensures { Idle (entry_at front.now) from result × (result ≤ n) }
{
    let border = n % NODES;
    let mut i = from;
    if border < from {
        return i;
    }
    if 24 * border <= front.len() {
        // by fours, so it is no range's loop of one record a turn
        while i + 4 <= border && four_idle(front, i) {
            i += 4;
        }
    }
    i
}

// The first record that waits among those from `from` to n - 1; if none does, n.
fn next_wait(front: &[u8], from: usize, n: usize) -> usize
    requires { from ≤ n }
    ensures { result ≡ first_of (λ k. waits (entry_at front.now k)) from (n - from) }
{
    let i = pass_idle(front, from, n);
    scans::first_waiting(front, i, n)
}

// Every whole record of the room is asked: begin zeroes all of it, and so does the end. Those that do not wait are passed over, for most do not.
fn waits_good(nodes: &[u8], front: &[u8], n: usize) -> bool
    ensures { result ≡ each_below (good_wait nodes.now front.now n) (length front.now / 24) }
{
    let m = front.len() / 24;
    // `k` goes on to the next that waits, so it is no range's
    let mut k = next_wait(front, 0, m);
    while k < m {
        if !wait_good(nodes, front, n, k) {
            return false;
        }
        k = next_wait(front, k + 1, m);
    }
    true
}

pub fn good_progress(r: Request, nodes: &[u8], front: &[u8], c: Counts, expansions: u64) -> bool
    ensures { result ≡ good_progress r nodes.now front.now c expansions }
{
    let n = c.retained;
    if !counts_good(r.node_budget, c, expansions) {
        return false;
    }
    let placed = nodes_good(r, nodes, front, n);
    let linked = chains::chains_end(nodes, n);
    let some = next_wait(front, 0, n) < n;
    let waiting = waits_good(nodes, front, n);
    placed & linked & some & waiting
}
