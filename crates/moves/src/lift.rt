// How a body moves by a difference in height (01, The graph, "Edge"): the kind of movement and its lift, or that it does not.
ghost use Rattle.std.specs.Prelude.{◌≡◌};
ghost use Rattle.moves.specs.Moves.{step_height, rising, falling, moving};

use crate::answer::Movement;
use world::{Body, Request};

// The smaller step height, of the request's and the body's.
#[tactic(auto, unfolding(crate::specs::Moves::step_height))]
pub fn step_height(r: Request, body: Body) -> f64
    ensures { result ≡ step_height r body }
{
    floats::min(r.step_height, body.step_height)
}

// A rise above E: a step, or else a jump, which always lifts by the whole jump height.
#[tactic(auto, unfolding(crate::specs::Moves::rising))]
fn rising(r: Request, body: Body, dy: f64) -> Option<(Movement, f64)>
    ensures { result ≡ rising r body dy }
{
    if dy <= step_height(r, body) + floats::E {
        return Some((Movement::Step, dy));
    }
    if dy <= r.jump_height + floats::E {
        return Some((Movement::Jump, r.jump_height));
    }
    None
}

// A fall beyond E.
#[tactic(auto, unfolding(crate::specs::Moves::falling))]
fn falling(r: Request, dy: f64) -> Option<(Movement, f64)>
    ensures { result ≡ falling r dy }
{
    if -dy <= r.max_drop + floats::E {
        Some((Movement::Drop, 0.0))
    } else {
        None
    }
}

// The movement by a difference in height.
#[tactic(auto, unfolding(crate::specs::Moves::moving))]
pub fn moving(r: Request, body: Body, dy: f64) -> Option<(Movement, f64)>
    ensures { result ≡ moving r body dy }
{
    if floats::E < dy {
        return rising(r, body, dy);
    }
    if dy < -floats::E {
        return falling(r, dy);
    }
    Some((Movement::Walk, floats::max(dy, 0.0)))
}
