// Ways: whether a body may go the way of an edge, up by the lift, across to the target's column, and down or up to the target (01, The graph, "Edge"), if not, why
// (02, No. 3), and if so, which door it meets (02, No. 5).
#![tactic(auto)]

ghost use Rattle.std.specs.Prelude.{◌≡◌};
ghost use Rattle.world.specs.Space.{space_of};
ghost use Rattle.clear.specs.Corridors.{corridor};
ghost use Rattle.ways.specs.Ways.{swept, way_check};

use clear::or_else;
use moves::{Movement, Reason, Waypoint};
use points::difference;
use world::{Body, Point, Query, World};

// The door of the area that a body sweeps from a point on, where that area is clear.
#[tactic(auto, unfolding(crate::specs::Ways::swept))]
fn sweep(world: World, body: Body, feet: Point, by: Point) -> Option<u32>
    ensures { result ≡ corridor (space_of world.entry) (swept body feet by) }
{
    let area = boxes::expand_towards(boxes::from_feet(feet, body.width, body.height), by);
    clear::corridor_of(world, area)
}

// What a way comes to: the checks of an edge in order, up to the first that fails. Where none does, the waypoint is made.
#[tactic(auto, unfolding(crate::specs::Ways::way_check))]
pub fn way_check(
    query: Query,
    from: Point,
    to: Point,
    lift: f64,
    movement: Movement,
) -> Result<Waypoint, Reason>
    ensures { result ≡ way_check (space_of query.entry.world) query.entry.request query.entry.body from to lift movement }
{
    let Query {
        world,
        request: r,
        body,
    } = query;
    let y = from.y + lift;
    let raised = Point { y, ..from };
    let across = Point { y, ..to };
    let up = Point {
        x: 0.0,
        y: lift,
        z: 0.0,
    };
    // a yes or no has no `ok_or`: these tests return their reasons by `if`
    if !places::in_range(r, to) {
        return Err(Reason::TargetOutOfRange);
    }
    if !places::in_range(r, raised) {
        return Err(Reason::RaisedOutOfRange);
    }
    if !places::standable(world, body, to) {
        return Err(Reason::TargetNotStandable);
    }
    let lifting = sweep(world, body, from, up).ok_or(Reason::LiftBlocked)?;
    let over = difference(across, raised);
    let crossing = sweep(world, body, raised, over).ok_or(Reason::CrossingBlocked)?;
    let down = difference(to, across);
    let settling = sweep(world, body, across, down).ok_or(Reason::SettleBlocked)?;
    if !segments::supported_segment(world, body.width, from, to) {
        return Err(Reason::Unsupported);
    }
    let door = u64::from(or_else(lifting, or_else(crossing, settling)));
    Ok(Waypoint {
        feet: to,
        lift,
        movement,
        door,
    })
}
