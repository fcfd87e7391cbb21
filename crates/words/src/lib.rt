// Points and edges as words of records (01, Tables, "Waypoint record"): what an expansion reads of a node's feet, and what it writes of an edge.
#![tactic(auto)]

ghost use Rattle.std.specs.Prelude.{◌≡◌};
ghost use Rattle.words.specs.Words.{coordinate, point_of, feet_of, label_of};

use moves::Waypoint;
use rooms::{Feet, Label};
use world::Point;

// The number of a pattern, with -0.0 as 0.
#[tactic(auto, unfolding(crate::specs::Words::coordinate, rooms::specs::Waypoints::canonical_word))]
fn coordinate(n: u64) -> f64
    ensures { result ≡ coordinate n }
{
    if n == 0x8000_0000_0000_0000 {
        return 0.0;
    }
    floats::float_of(n)
}

// The point that feet stand for.
#[tactic(auto, unfolding(crate::specs::Words::point_of))]
pub fn point_of(p: Feet) -> Point
    ensures { result ≡ point_of p }
{
    Point {
        x: coordinate(p.x),
        y: coordinate(p.y),
        z: coordinate(p.z),
    }
}

// The feet at a point, with its own bits.
#[tactic(auto, unfolding(crate::specs::Words::feet_of))]
pub fn feet_of(p: Point) -> Feet
    ensures { result ≡ feet_of p }
{
    Feet {
        x: floats::bits_of(p.x),
        y: floats::bits_of(p.y),
        z: floats::bits_of(p.z),
    }
}

// What an edge says of the point that it leads to.
#[tactic(auto, unfolding(crate::specs::Words::label_of))]
pub fn label_of(w: Waypoint) -> Label
    ensures { result ≡ label_of w }
{
    Label {
        lift: floats::bits_of(w.lift),
        movement: u64::from(w.movement),
        door: w.door,
    }
}
