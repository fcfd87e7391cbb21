// Edges: from one standing point to another (01, The graph: "Edge", "Connector"), and where there is none the first reason (02, No. 3).
//
// How a body moves by a difference in height is `moves`, where it may stand `places`, whether the way is free `ways`.
#![tactic(auto)]

ghost use Rattle.std.specs.Prelude.{◌≡◌};
ghost use Rattle.world.specs.Space.{space_of};
ghost use Rattle.edges.specs.Edges.{edge, connector};
ghost use Rattle.edges.specs.Reasons.{edge_check};

use moves::{Reason, Waypoint};
use world::{Point, Query};

// The edge check from one point to another: the waypoint that the edge leads to, or the first reason why there is none.
#[tactic(auto, unfolding(crate::specs::Reasons::edge_check))]
pub fn edge_check(query: Query, from: Point, to: Point) -> Result<Waypoint, Reason>
    ensures { result ≡ edge_check (space_of query.entry.world) query.entry.request query.entry.body from to }
{
    let dy = to.y - from.y;
    let Some((movement, lift)) = moves::moving(query.request, query.body, dy) else {
        if floats::E < dy {
            return Err(Reason::TooHigh);
        }
        return Err(Reason::TooDeep);
    };
    ways::way_check(query, from, to, lift, movement)
}

// The edge from one point to another.
#[tactic(auto, using(crate::proofs::Laws::check_is))]
pub fn edge(query: Query, from: Point, to: Point) -> Option<Waypoint>
    ensures { result ≡ edge (space_of query.entry.world) query.entry.request query.entry.body from to }
{
    edge_check(query, from, to).ok()
}

// The edge to the goal, from a point that is near enough.
#[tactic(auto, unfolding(crate::specs::Edges::connector))]
pub fn connector(query: Query, from: Point) -> Option<Waypoint>
    ensures { result ≡ connector (space_of query.entry.world) query.entry.request query.entry.body from }
{
    let r = query.request;
    if places::near(1.5, from.x, r.goal.x) & places::near(1.5, from.z, r.goal.z) {
        return edge(query, from, r.goal);
    }
    None
}
