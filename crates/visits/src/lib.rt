// What one step of the search does to its rooms (01, "Search"): the definitions of a visit, a closing and the start, and the code of the last two. A visit
// itself is the crate `reach`, and answers an `Option<Counts>`: None where its point is that of a closed node, and nothing changes; else the counts after.
// `is_shut` tells beforehand that a visit would change nothing.
//
// The two rooms, nodes and front, are two slices all the way, as C lends them (walk_c).
//
// `close` and `begin` answer for every input. Where the rooms are too small for the budget, or the counts are no counts of such a search, `close` leaves all
// as it is.
#![tactic(auto)]

ghost use Rattle.std.specs.Prelude.{◌≡◌};
ghost use Rattle.visits.specs.Visits.{ready, shut_at, ClosedIf, Started};

use rooms::{Counts, Entry, Feet, Label, NodeRecord};
use world::Point;

// What is searched: how many nodes may be retained, and the goal.
#[derive(Clone, Copy)]
pub struct Aim {
    pub budget: usize,
    pub goal: Feet,
}

// A node that was closed, as it was before, and the counts after.
#[derive(Clone, Copy)]
pub struct Closing {
    pub node: NodeRecord,
    pub counts: Counts,
}

// The node that is expanded: its number, its record, and the point that its feet are read as.
#[derive(Clone, Copy)]
pub struct Place {
    pub number: usize,
    pub node: NodeRecord,
    pub point: Point,
}

// Half of what a u64 can count: counts below it can grow.
const FAR: u64 = 0x8000_0000_0000_0000;

// Whether the rooms are large enough for the budget, and the counts are such that node k is there and all can grow by one.
#[tactic(auto, unfolding(crate::specs::Visits::ready))]
pub fn is_ready(nodes: usize, front: usize, budget: usize, k: usize, c: Counts) -> bool
    ensures { result ≡ ready nodes front budget k c }
{
    let roomy = (budget <= nodes / 64) & (budget <= front / 24) & (budget <= 4294967295);
    let there = (c.retained <= budget) & (k < c.retained);
    let grows = (c.pushed < FAR) & (c.dropped < FAR) & (c.closed < FAR);
    roomy & there & grows
}

// Whether a lookup found a closed node: j is one of the n nodes, and closed.
#[tactic(auto, unfolding(crate::specs::Visits::shut_at))]
pub fn is_shut(nodes: &[u8], n: usize, j: usize) -> bool
    ensures { result ≡ shut_at nodes.now n j }
{
    (j < n) & (rooms::get_node(nodes, j).closed != 0)
}

// Node k closed: it waits no more.
pub fn close(nodes: &mut [u8], front: &mut [u8], aim: Aim, k: usize, c: Counts) -> Closing
    ensures { ClosedIf aim k c result nodes.old front.old nodes.new front.new }
{
    let node = rooms::get_node(nodes, k);
    let ready = is_ready(nodes.len(), front.len(), aim.budget, k, c);
    if !ready {
        return Closing { node, counts: c };
    }
    let shut = NodeRecord { closed: 1, ..node };
    let idle = Entry {
        estimate: 0,
        order: 0,
        waiting: 0,
    };
    writes::put_node(nodes, k, shut);
    writes::put_entry(front, k, idle);
    let counts = Counts {
        closed: c.closed + 1,
        ..c
    };
    Closing { node, counts }
}

// The start retained; a budget of 0 drops it.
pub fn begin(nodes: &mut [u8], front: &mut [u8], budget: usize, start: Feet) -> Counts
    ensures { Started budget start result nodes.old front.old nodes.new front.new }
{
    if budget == 0 {
        return Counts {
            retained: 0,
            closed: 0,
            pushed: 1,
            dropped: 1,
        };
    }
    let label = Label {
        lift: 0,
        movement: 0,
        door: rooms::NO_DOOR,
    };
    let node = NodeRecord {
        feet: start,
        label,
        cost: 0,
        parent: rooms::NOBODY,
        closed: 0,
    };
    let entry = Entry {
        estimate: 0,
        order: 0,
        waiting: 1,
    };
    writes::put_node(nodes, 0, node);
    writes::put_entry(front, 0, entry);
    Counts {
        retained: 1,
        closed: 0,
        pushed: 1,
        dropped: 0,
    }
}
