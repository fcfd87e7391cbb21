// A point that a step reaches (01, "Search"): a new one is retained while there is room and else counted as dropped, an open one may be re-parented.
//
// `visit` answers for every input. Where the rooms are too small for the budget, or the counts are no counts of such a search, it leaves all as it is.
#![tactic(auto)]

ghost use Rattle.std.specs.Prelude.{◌≡◌, ◌+◌, ◌*◌, ◌≤◌, ◌<◌, length};
ghost use Rattle.rooms.specs.Records.{node_at};
ghost use Rattle.rooms.specs.Rooms.{nobody};
ghost use Rattle.rooms.specs.Writes.{WroteNode, WroteEntry};
ghost use Rattle.costs.specs.Costs.{cost_by};
ghost use Rattle.visits.specs.Visits.{Ready, Seen, counts_by, says_closed, is_shut, VisitedIf, child_record};

use costs::{cheaper, cost_by, estimate, lowered, pushed_as};
use rooms::{Counts, Entry, NodeRecord, WaypointRecord};
use visits::{Aim, Place};

// Node j written as an open node that is reached from node k, with its entry.
fn put_open(
    nodes: &mut [u8],
    front: &mut [u8],
    j: usize,
    k: usize,
    to: WaypointRecord,
    cost: u64,
    entry: Entry,
)
    requires { (64 * j + 64 ≤ length nodes.old) × (24 * j + 24 ≤ length front.old) × (k < nobody) }
    ensures { WroteNode nodes.old j (child_record k to.feet to.label cost) nodes.new × WroteEntry front.old j entry front.new }
{
    let WaypointRecord { feet, label } = to;
    let node = NodeRecord {
        feet,
        label,
        cost,
        parent: k as u32,
        closed: 0,
    };
    writes::put_node(nodes, j, node);
    writes::put_entry(front, j, entry);
}

// A step from a node to a point that is retained already, as node j. What it costs is worked out only for an open node: it takes a root. The node keeps its
// feet, which may have -0.0 where the step's have 0.0.
fn again(
    nodes: &mut [u8],
    front: &mut [u8],
    aim: Aim,
    at: Place,
    c: Counts,
    j: usize,
    to: WaypointRecord,
) -> Option<Counts>
    requires ready { Ready nodes.old front.old aim.budget 1 c }
    requires j_lt_retained { (j < c.retained) × (at.number < c.retained) }
    ensures { Seen aim at.number c j (cost_by at.node.cost at.node.feet to.feet) to.feet to.label (counts_by c result) nodes.old front.old nodes.new front.new × (says_closed result ≡ is_shut (node_at nodes.old j)) }
{
    let old = rooms::get_node(nodes, j);
    if old.closed != 0 {
        return None;
    }
    let cost = cost_by(at.node.cost, at.node.feet, to.feet);
    let better = cheaper(cost, old.cost);
    if !better {
        return Some(c);
    }
    let waiting = rooms::get_entry(front, j);
    let e = estimate(aim.goal, cost, to.feet);
    let entry = lowered(e, waiting, c.pushed);
    let taken = WaypointRecord {
        feet: old.feet,
        label: to.label,
    };
    put_open(nodes, front, j, at.number, taken, cost, entry);
    Some(Counts {
        pushed: c.pushed + 1,
        ..c
    })
}

// A step that an expansion of a node found, to a point where a lookup found node j: such a node may be re-parented. A j that is not below the retained nodes
// says that none is there: the point is retained while there is room, and else counted as dropped. None where node j is closed: nothing changes.
pub fn visit(
    nodes: &mut [u8],
    front: &mut [u8],
    aim: Aim,
    at: Place,
    c: Counts,
    j: usize,
    to: WaypointRecord,
) -> Option<Counts>
    ensures { VisitedIf aim at.number at.node c j to.feet to.label result nodes.old front.old nodes.new front.new }
{
    let ready = visits::is_ready(nodes.len(), front.len(), aim.budget, at.number, c);
    if !ready {
        return Some(c);
    }
    let n = c.retained;
    if j < n {
        return again(nodes, front, aim, at, c, j, to);
    }
    if aim.budget <= n {
        return Some(Counts {
            dropped: c.dropped + 1,
            ..c
        });
    }
    let cost = cost_by(at.node.cost, at.node.feet, to.feet);
    let e = estimate(aim.goal, cost, to.feet);
    let entry = pushed_as(e, c.pushed);
    put_open(nodes, front, n, at.number, to, cost, entry);
    Some(Counts {
        retained: n + 1,
        pushed: c.pushed + 1,
        ..c
    })
}
