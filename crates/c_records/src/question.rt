// What a search, a walk-back or an edge is asked about (01, "Numbers given back"), beside the tables of the world. A record that is shorter than its struct
// makes an invalid request, which each of them answers in its place in 01's order, so that every call answers for every length.
ghost use Rattle.std.specs.Prelude.{◌≡◌};
ghost use Rattle.c_records.specs.Records.{request_in};
ghost use Rattle.c_records.specs.Asked.{no_request, question_in};

use crate::whole::{all_whole, nowhere};
use scene_records::{body_at, window_at};
use world::{Body, Request, Window, point_at};

#[derive(Clone, Copy)]
pub struct Question {
    pub window: Window,
    pub request: Request,
    pub body: Body,
}

// The request of a whole record.
#[tactic(auto, unfolding(crate::specs::Records::request_in, world::specs::Space::point_at))]
fn request_in(request: &[u8]) -> Request
    ensures { result ≡ request_in request.now }
{
    let heights = point_at(request, 56);
    Request {
        start: point_at(request, 0),
        goal: point_at(request, 24),
        max_range: fields::f64_at(request, 48),
        node_budget: fields::u64_at(request, 80),
        step_height: heights.x,
        jump_height: heights.y,
        max_drop: heights.z,
    }
}

// The request where a record is cut short: from nowhere to nowhere, which is invalid.
fn no_request() -> Request
    ensures { result ≡ no_request }
{
    Request {
        start: nowhere(),
        goal: nowhere(),
        max_range: 0.0,
        node_budget: 0,
        step_height: 0.0,
        jump_height: 0.0,
        max_drop: 0.0,
    }
}

#[tactic(auto, unfolding(crate::specs::Asked::asked, crate::specs::Asked::question_in))]
pub fn question_in(window: &[u8], request: &[u8], body: &[u8]) -> Question
    ensures { result ≡ question_in window.now request.now body.now }
{
    let asked = if all_whole(window, request, 88, body) {
        request_in(request)
    } else {
        no_request()
    };
    Question {
        window: window_at(window, 0),
        request: asked,
        body: body_at(body, 0),
    }
}
