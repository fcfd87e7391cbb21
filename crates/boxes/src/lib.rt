// What is done with boxes (01, "Boxes"): a box is two corners of three numbers each. One rounding per operation, in the source's order; what is done with
// the corners is `points`. The types and the definitions are `world`'s, whose space is made of boxes.
#![tactic(auto)]

ghost use Rattle.std.specs.Prelude.{◌≡◌};
ghost use Rattle.world.specs.Boxes.{meets, moved, cube, voxel, from_feet, expand_towards};

use world::{Aabb, Point};

// Whether two boxes share room, strictly on every axis.
pub fn intersects(a: Aabb, b: Aabb) -> bool
    ensures { result ≡ meets a b }
{
    // Of a cell's boxes most lie above or below an area: x and z of these are not worked out.
    let level = (a.min.y < b.max.y) & (b.min.y < a.max.y);
    if !level {
        return false;
    }
    (a.min.x < b.max.x) & (b.min.x < a.max.x) & (a.min.z < b.max.z) & (b.min.z < a.max.z)
}

// A box moved by a point.
pub fn offset(b: Aabb, by: Point) -> Aabb
    ensures { result ≡ moved b by }
{
    Aabb {
        min: points::sum(b.min, by),
        max: points::sum(b.max, by),
    }
}

// The full unit cube of an unknown cell, before it is moved to the cell.
pub fn unit() -> Aabb
    ensures { result ≡ cube }
{
    Aabb {
        min: Point {
            x: 0.0,
            y: 0.0,
            z: 0.0,
        },
        max: Point {
            x: 1.0,
            y: 1.0,
            z: 1.0,
        },
    }
}

// A cell's own cube, of its least corner.
pub fn voxel_at(p: Point) -> Aabb
    ensures { result ≡ voxel p }
{
    Aabb {
        min: p,
        max: points::sum(
            p,
            Point {
                x: 1.0,
                y: 1.0,
                z: 1.0,
            },
        ),
    }
}

// The box of a body that stands with its feet at a point.
pub fn from_feet(feet: Point, width: f64, height: f64) -> Aabb
    ensures { result ≡ from_feet feet width height }
{
    let half = width / 2.0;
    Aabb {
        min: Point {
            x: feet.x - half,
            y: feet.y,
            z: feet.z - half,
        },
        max: points::sum(
            feet,
            Point {
                x: half,
                y: height,
                z: half,
            },
        ),
    }
}

// A box grown on the sides that a difference points to.
pub fn expand_towards(b: Aabb, delta: Point) -> Aabb
    ensures { result ≡ expand_towards b delta }
{
    let zero = Point {
        x: 0.0,
        y: 0.0,
        z: 0.0,
    };
    let grown = points::span(delta, zero);
    Aabb {
        min: points::sum(b.min, grown.min),
        max: points::sum(b.max, grown.max),
    }
}
