// What is done with points (01, "Boxes"), axis by axis, one rounding per operation. The type and the definitions are `world`'s.
#![tactic(auto)]

ghost use Rattle.std.specs.Prelude.{◌≡◌};
ghost use Rattle.world.specs.Boxes.{corner, plus, minus, span};

use world::{Aabb, Point};

// A cell's least corner.
#[inline(always)]
pub fn corner_of(x: i64, y: i64, z: i64) -> Point
    ensures { result ≡ corner x y z }
{
    Point {
        x: cells::float_cell(x),
        y: cells::float_cell(y),
        z: cells::float_cell(z),
    }
}

// The sum of two points, axis by axis.
pub fn sum(p: Point, q: Point) -> Point
    ensures { result ≡ plus p q }
{
    Point {
        x: p.x + q.x,
        y: p.y + q.y,
        z: p.z + q.z,
    }
}

// p - q, axis by axis.
pub fn difference(p: Point, q: Point) -> Point
    ensures { result ≡ minus p q }
{
    Point {
        x: p.x - q.x,
        y: p.y - q.y,
        z: p.z - q.z,
    }
}

// The span of two points: of each coordinate the smaller and the larger.
pub fn span(p: Point, q: Point) -> Aabb
    ensures { result ≡ span p q }
{
    Aabb {
        min: Point {
            x: floats::min(p.x, q.x),
            y: floats::min(p.y, q.y),
            z: floats::min(p.z, q.z),
        },
        max: Point {
            x: floats::max(p.x, q.x),
            y: floats::max(p.y, q.y),
            z: floats::max(p.z, q.z),
        },
    }
}
