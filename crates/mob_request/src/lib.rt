// What a mob's search asks (01, Policy: "`find_path` asks range 16, budget 2,048, drop 3, the body's step, and the policy's jump height or 0 if it can't
// jump"). `find_path` has the search.
#![tactic(auto)]

ghost use Rattle.std.specs.Prelude.{◌≡◌};
ghost use Rattle.mob_request.specs.Asked.{request_of};

use policy::WalkPolicy;
use world::{Body, Point, Request, Window};

// What a mob's search is asked, beside the tables.
#[derive(Clone, Copy)]
pub struct Mob {
    pub policy: WalkPolicy,
    pub in_water: bool,
    pub window: Window,
    pub start: Point,
    pub goal: Point,
    pub body: Body,
}

// A search's range around the body, the nodes that it retains, and the highest drop on its way.
const PATH_MAX_RANGE: f64 = 16.0;

const PATH_NODE_BUDGET: u64 = 2048;

const PATH_MAX_DROP: f64 = 3.0;

// The request of a mob with this policy and this body, from a start to a goal.
pub fn request_of(policy: WalkPolicy, start: Point, goal: Point, body: Body) -> Request
    ensures { result ≡ request_of policy start goal body }
{
    let jump_height = if policy.can_jump {
        policy.jump_height
    } else {
        0.0
    };
    Request {
        start,
        goal,
        max_range: PATH_MAX_RANGE,
        node_budget: PATH_NODE_BUDGET,
        step_height: body.step_height,
        jump_height,
        max_drop: PATH_MAX_DROP,
    }
}
