// One edge of an expansion (01, The graph, "Graph step"; "Search"): where there is one, it is noted whether it climbs, and its step is visited.
//
// `step_to` answers for every input. Where the rooms or the counts are not those of a search (`ready`, visits), it leaves both as they are.
#![tactic(auto)]

ghost use Rattle.strides.specs.Strides.{Strode};

use moves::Waypoint;
use rooms::{Counts, WaypointRecord};
use visits::Aim;
pub use visits::Place;

// What a column has come to: the counts, and whether an edge so far does not climb.
#[derive(Clone, Copy)]
pub struct Column {
    pub counts: Counts,
    pub level: bool,
}

// What an edge makes of what its column has come to, where a lookup found node j at its point; a j that is not below the retained nodes says that none is there.
pub fn step_to(
    nodes: &mut [u8],
    front: &mut [u8],
    aim: Aim,
    at: Place,
    edge: Option<Waypoint>,
    j: usize,
    c: Column,
) -> Column
    ensures { Strode aim at edge j c result nodes.old front.old nodes.new front.new }
{
    let Some(way) = edge else {
        return c;
    };
    let level = c.level | sides::is_level(at.point, way.feet);
    let to = WaypointRecord {
        feet: words::feet_of(way.feet),
        label: words::label_of(way),
    };
    let Some(counts) = reach::visit(nodes, front, aim, at, c.counts, j, to) else {
        // A closed side still answers (01).
        return Column { level, ..c };
    };
    Column { counts, level }
}
