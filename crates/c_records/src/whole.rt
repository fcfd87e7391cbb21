// Whether the records that a call is handed are whole, and where an end of a request is that comes from records that are not.
ghost use Rattle.std.specs.Prelude.{◌≡◌};
ghost use Rattle.c_records.specs.Asked.{all_whole, no_point, end_in};

use world::{Point, point_at};

// Whether none of the three records is shorter than its struct. The middle one has so many bytes: a request 88, two ends 48.
#[tactic(auto, unfolding(crate::specs::Asked::all_whole))]
pub(crate) fn all_whole(window: &[u8], asked: &[u8], size: usize, body: &[u8]) -> bool
    ensures { result ≡ all_whole window.now asked.now size body.now }
{
    (24 <= window.len()) & (size <= asked.len()) & (24 <= body.len())
}

// A point that is no place in the world.
pub(crate) fn nowhere() -> Point
    ensures { result ≡ no_point }
{
    Point {
        x: 0.0 / 0.0,
        y: 0.0 / 0.0,
        z: 0.0 / 0.0,
    }
}

// The point at an offset of a record, or nowhere where the records are not whole.
#[tactic(auto, unfolding(crate::specs::Asked::end_in))]
pub(crate) fn end_in(whole: bool, s: &[u8], at: usize) -> Point
    ensures { result ≡ end_in whole s.now at }
{
    if whole { point_at(s, at) } else { nowhere() }
}
