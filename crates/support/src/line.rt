// The part of a way's centre line that lies above a box (01: "The centre-line intervals, borders included"), and what it makes of what is covered.
ghost use Rattle.std.specs.Prelude.{◌≡◌};
ghost use Rattle.support.specs.Support.{narrowed, interval};
ghost use Rattle.support.specs.Pass.{reach_by};

use crate::Interval;
use world::{Aabb, Point};

// An interval, narrowed to the part between two borders of an axis: where the way does not move along it, all of it or none.
#[tactic(auto, unfolding(crate::specs::Support::narrowed))]
fn narrow(start: f64, delta: f64, least: f64, greatest: f64, i: Interval) -> Option<Interval>
    ensures { result ≡ narrowed start delta least greatest i }
{
    if delta == 0.0 {
        if (start < least) | (greatest < start) {
            return None;
        }
        return Some(i);
    }
    let a = (least - start) / delta;
    let b = (greatest - start) / delta;
    Some(Interval {
        begin: floats::max(i.begin, floats::min(a, b)),
        end: floats::min(i.end, floats::max(a, b)),
    })
}

// The part of the centre line above a box: in x, then in z. One that begins behind its end is none.
#[tactic(auto, unfolding(crate::specs::Support::interval))]
pub(crate) fn span_over(b: Aabb, from: Point, to: Point) -> Option<Interval>
    ensures { result ≡ interval b from to }
{
    let all = Interval {
        begin: 0.0,
        end: 1.0,
    };
    let i = narrow(from.x, to.x - from.x, b.min.x, b.max.x, all)?;
    let j = narrow(from.z, to.z - from.z, b.min.z, b.max.z, i)?;
    if j.begin <= j.end {
        return Some(j);
    }
    None
}

// What is covered with the part of the centre line above a box, where that begins at most E behind what was.
#[tactic(auto, unfolding(crate::specs::Cover::reach_one, crate::specs::Cover::joins))]
pub(crate) fn reach_over(b: Aabb, from: Point, to: Point, covered: f64) -> f64
    ensures { result ≡ reach_by covered (interval b from to) }
{
    let Some(i) = span_over(b, from, to) else {
        return covered;
    };
    if i.begin <= covered + floats::E {
        return floats::max(i.end, covered);
    }
    covered
}
