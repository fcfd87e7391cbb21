// What a search may be asked (01, "Numbers given back"): `valid_request`, and 4 TooLarge. Each number is compared as a number, so a NaN is never
// within a border. Every function answers for every request and body.
#![tactic(auto)]

ghost use Rattle.std.specs.Prelude.{◌≡◌};
ghost use Rattle.request.specs.Request.{limit, within, valid_request, sizes_too_large, too_large};

use world::{Body, Point, Request};

// How far from 0 a coordinate may be, so that every cell that the search looks at has a number of 32 bits.
fn limit_of(r: Request, body: Body) -> f64
    ensures { result ≡ limit r body }
{
    2147483647.0 - (r.max_range + body.width + body.height + 4.0)
}

// Whether each coordinate of a point is smaller in size than a number.
fn is_within(most: f64, p: Point) -> bool
    ensures { result ≡ within most p }
{
    (floats::abs(p.x) < most) & (floats::abs(p.y) < most) & (floats::abs(p.z) < most)
}

// Whether a request can be searched for: else it is answered 1 Unreachable.
pub fn valid_request(r: Request, body: Body) -> bool
    ensures { result ≡ valid_request r body }
{
    // The points are not asked for: a coordinate smaller in size than the limit is finite.
    let finite = floats::finite(r.max_range)
        & floats::finite(r.step_height)
        & floats::finite(r.jump_height)
        & floats::finite(r.max_drop)
        & (floats::finite(body.width)
            & floats::finite(body.height)
            & floats::finite(body.step_height));
    let sized = (0.0 < body.width) & (0.0 < body.height);
    let not_negative = (0.0 <= r.max_range)
        & (0.0 <= r.step_height)
        & (0.0 <= body.step_height)
        & (0.0 <= r.jump_height)
        & (0.0 <= r.max_drop);
    let most = limit_of(r, body);
    let placed = (0.0 < most) & is_within(most, r.start) & is_within(most, r.goal);
    finite & sized & not_negative & placed
}

// Whether a request is 4 TooLarge by its range or its body, the budget not read: what the walk-back asks.
pub fn sizes_too_large(r: Request, body: Body) -> bool
    ensures { result ≡ sizes_too_large r body }
{
    (64.0 < r.max_range) | (8.0 < body.width) | (16.0 < body.height)
}

// Whether a request is 4 TooLarge.
pub fn too_large(r: Request, body: Body) -> bool
    ensures { result ≡ too_large r body }
{
    sizes_too_large(r, body) | (4096 < r.node_budget)
}
