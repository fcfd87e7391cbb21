// Places: which points are in range, and at which a body may stand (01, The graph: "In range", "standable").
#![tactic(auto)]

ghost use Rattle.std.specs.Prelude.{◌≡◌};
ghost use Rattle.world.specs.Space.{space_of};
ghost use Rattle.places.specs.Places.{near, in_range, standable};

use world::{Body, Point, Request, World};

// Whether two coordinates differ by at most so much.
pub fn near(most: f64, a: f64, b: f64) -> bool
    ensures { result ≡ near most a b }
{
    floats::abs(a - b) <= most
}

// Whether a point is in range of the start.
#[tactic(auto, unfolding(crate::specs::Places::in_range))]
pub fn in_range(r: Request, p: Point) -> bool
    ensures { result ≡ in_range r p }
{
    let most = r.max_range + floats::E;
    // `&`: floats are compared with no branch between them
    near(most, p.x, r.start.x) & near(most, p.y, r.start.y) & near(most, p.z, r.start.z)
}

// Whether a body may stand at a point.
#[tactic(auto, unfolding(crate::specs::Places::standable))]
pub fn standable(world: World, body: Body, p: Point) -> bool
    ensures { result ≡ standable (space_of world.entry) body p }
{
    let area = boxes::from_feet(p, body.width, body.height);
    clear::clear_area(world, area) && segments::supported_segment(world, body.width, p, p)
}
