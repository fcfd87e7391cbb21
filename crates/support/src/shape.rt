// What one shape does to a way (01, The graph, supported segments): the footprint that it must lie under, whether it counts, and how far it covers the centre line, of what is covered
// so far. A shape that counts and is no support refuses the way.
ghost use Rattle.std.specs.Prelude.{◌≡◌, cond};
ghost use Rattle.support.specs.Support.{footprint, counts, interval};
ghost use Rattle.support.specs.Pass.{step};

use crate::{Interval, Way};
use world::{Aabb, Point};

// Both feet's span, widened by half the width.
#[tactic(auto, unfolding(crate::specs::Support::footprint))]
pub fn footprint(width: f64, from: Point, to: Point) -> Aabb
    ensures { result ≡ footprint width from to }
{
    let half = width * 0.5;
    let feet = points::span(from, to);
    Aabb {
        min: Point {
            x: feet.min.x - half,
            y: feet.min.y,
            z: feet.min.z - half,
        },
        max: Point {
            x: feet.max.x + half,
            y: feet.max.y,
            z: feet.max.z + half,
        },
    }
}

// Whether a shape counts: its top is within E of the span, and it overlaps the footprint strictly.
#[tactic(auto, unfolding(crate::specs::Support::counts))]
fn counts(f: Aabb, b: Aabb) -> bool
    ensures { result ≡ counts f b }
{
    // Most shapes under a way lie lower: x and z of these are not worked out.
    let level = (f.min.y - floats::E <= b.max.y) & (b.max.y <= f.max.y + floats::E);
    if !level {
        return false;
    }
    (b.min.x < f.max.x) & (f.min.x < b.max.x) & (b.min.z < f.max.z) & (f.min.z < b.max.z)
}

// How far a pass that nothing has refused covers the centre line with one more shape; none where this one refuses it.
#[tactic(auto, unfolding(crate::specs::Pass::step))]
pub fn reach_shape(way: Way, support: bool, b: Aabb, covered: f64) -> Option<f64>
    ensures { result ≡ step way (Some covered) (record { support = support; box = b }) }
{
    if !counts(way.under, b) {
        return Some(covered);
    }
    if support {
        return Some(crate::line::reach_over(b, way.from, way.to, covered));
    }
    None
}

// The part of a way's centre line above a shape, where the shape counts.
pub fn part_over(way: Way, b: Aabb) -> Option<Interval>
    ensures { result ≡ cond (counts way.under b) (interval b way.from way.to) None }
{
    if counts(way.under, b) {
        return crate::line::span_over(b, way.from, way.to);
    }
    None
}
