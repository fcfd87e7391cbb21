// The length of a list of waypoint records, as a body goes: of each edge its lift, its way across, and its way up or down from there (01, "Scenes and walkprint";
// 02, No. 2).
#![tactic(auto)]

ghost use Rattle.std.specs.Prelude.{◌≡◌, ◌≤◌, length};
ghost use Rattle.std.specs.Float.{binary64};
ghost use Rattle.std.specs.Float.Ieee.{add};
ghost use Rattle.lengths.specs.Length.{stop_at, edge_length, length_of};

use world::Point;

// A stop of a list: a record's feet, and how far the edge to it lifts.
#[derive(Clone, Copy)]
pub struct Stop {
    pub feet: Point,
    pub lift: f64,
}

// The stop whose record stands from an offset on.
#[tactic(auto, unfolding(crate::specs::Length::stop_at))]
fn stop_at(list: &[u8], at: usize) -> Stop
    requires { at ≤ length list.now }
    ensures { result ≡ stop_at list.now at }
{
    Stop {
        feet: world::point_at(list, at),
        lift: fields::f64_at(list, at + 24),
    }
}

// A sum so far, with the length of one more edge added to it.
#[tactic(auto, unfolding(crate::specs::Length::edge_length))]
fn add_edge(total: f64, from: Stop, to: Stop) -> f64
    ensures { result ≡ add binary64 total (edge_length from to) }
{
    let lift = to.lift;
    let dx = to.feet.x - from.feet.x;
    let rest = to.feet.y - (from.feet.y + lift);
    let dz = to.feet.z - from.feet.z;
    let across = root::square_root(dx * dx + dz * dz);
    let settle = floats::abs(rest);
    total + (lift + across + settle)
}

// The length of the way through the list's points, each record read once; a partial record at the end is not read.
pub fn length_of(list: &[u8]) -> f64
    ensures { result ≡ length_of list.now }
{
    let mut total: f64 = 0.0;
    let mut from = stop_at(list, 0);
    for k in 1..list.len() / 48 {
        let to = stop_at(list, 48 * k);
        total = add_edge(total, from, to);
        from = to;
    }
    total
}
