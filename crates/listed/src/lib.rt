// How the records of a list that is walked back (01, Modules 5) compare with the start, an edge and the goal (01, The graph, "Same point"), and whether the list is
// a bad one (02, No. 3).
#![tactic(auto)]

ghost use Rattle.std.specs.Prelude.{◌≡◌};
ghost use Rattle.rooms.specs.Waypoints.{same_point, alike};
ghost use Rattle.words.specs.Words.{feet_of, label_of};
ghost use Rattle.rooms.specs.Records.{waypoint_at};
ghost use Rattle.listed.specs.Listed.{entry, above3, bad_list};
ghost use Rattle.listed.specs.Compared.{leads_to, labelled_by, starts};

use equal_points::same_word;
use moves::Waypoint;
use rooms::{Label, NO_DOOR, WaypointRecord};
use world::Point;

// The start's label: Walk, lift 0 and no door.
const STANDING: Label = Label {
    lift: 0,
    movement: 0,
    door: NO_DOOR,
};

// Whether a point is a record's.
pub fn same_feet(p: Point, v: WaypointRecord) -> bool
    ensures { result ≡ same_point (feet_of p) v.feet }
{
    equal_points::same_point(words::feet_of(p), v.feet)
}

// Whether two labels are alike: their movements, their lifts and their doors.
#[tactic(auto, unfolding(rooms::specs::Waypoints::alike))]
fn alike(a: Label, b: Label) -> bool
    ensures { result ≡ alike a b }
{
    (a.movement == b.movement) & (same_word(a.lift, b.lift) & (a.door == b.door))
}

// Whether an edge leads to a record: its point, its movement, its lift and its door.
#[tactic(auto, unfolding(crate::specs::Compared::leads_to))]
pub fn leads_to(v: WaypointRecord, step: Waypoint) -> bool
    ensures { result ≡ leads_to v step }
{
    same_feet(step.feet, v) & alike(words::label_of(step), v.label)
}

// Whether there is an edge, with a record's movement, lift and door.
pub fn labelled_by(edge: Option<Waypoint>, v: WaypointRecord) -> bool
    ensures { result ≡ labelled_by edge v.label }
{
    edge.is_some_and(|step| alike(words::label_of(step), v.label))
}

// Whether a record is the start's: its point and its label.
fn is_start(start: Point, v: WaypointRecord) -> bool
    ensures { result ≡ starts start v }
{
    same_feet(start, v) & alike(STANDING, v.label)
}

// Whether the first record of a list is the start's.
pub fn begins_at(start: Point, list: &[u8]) -> bool
    ensures { result ≡ starts start (waypoint_at list.now 0) }
{
    is_start(start, rooms::get_waypoint(list, 0))
}

// Whether the movement of record k is above 3.
fn is_above(list: &[u8], k: usize) -> bool
    ensures { result ≡ above3 (entry (waypoint_at list.now k)) }
{
    3 < rooms::get_waypoint(list, k).label.movement
}

// Whether a list is bad: empty, with a partial record, or with a movement above 3.
pub fn is_bad(list: &[u8]) -> bool
    ensures { result ≡ bad_list list.now }
{
    if (list.len() % 48 != 0) | (list.len() == 0) {
        return true;
    }
    (0..list.len() / 48).any(|k| is_above(list, k))
}
