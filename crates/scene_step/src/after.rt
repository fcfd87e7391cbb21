// What a good record of a kind makes of the state (01, "Scenes and walkprint").
ghost use Rattle.std.specs.Prelude.{◌≡◌};
ghost use Rattle.scene_step.specs.Next.{Allowed, ShapeFits, with_box_counted, next};

use scene_records::{body_at, cell_count, number_of, window_at};
use scene_rules::Counts;
use scene_state::Reading;
use world::point_at;

// One box more, of shape n: the last shape, or a new one.
#[tactic(auto, unfolding(crate::specs::Next::count_after, crate::specs::Next::with_box_counted))]
fn with_box_counted(c: Counts, n: u32) -> Counts
    requires { ShapeFits c n }
    ensures { result ≡ with_box_counted c n }
{
    let shapes = n + 1;
    let last = if shapes == c.shapes { c.last + 1 } else { 1 };
    Counts {
        shapes,
        boxes: c.boxes + 1,
        last,
        ..c
    }
}

// The number of the record behind this one begins again past the last u64. A kind is the record's byte (`in_order` of scene_rules).
#[tactic(auto, unfolding(crate::specs::Next::next, crate::specs::Next::request_after, crate::specs::Next::body_after, crate::specs::Next::window_after, crate::specs::Next::counts_after))]
pub(crate) fn next(state: Reading, bytes: &[u8], kind: u8) -> Reading
    requires { Allowed kind state.counts bytes.now }
    ensures { result ≡ next kind state bytes.now }
{
    let number = std::num::wrapping_add_u64(state.number, 1);
    let mut next = Reading {
        number,
        kind,
        ..state
    };
    match kind {
        1 => {
            next.request.start = point_at(bytes, 8);
            next.request.goal = point_at(bytes, 32);
            next.request.max_range = fields::f64_at(bytes, 56);
            next.request.node_budget = u64::from(number_of(bytes));
        }
        2 => {
            next.request.step_height = fields::f64_at(bytes, 8);
            next.request.jump_height = fields::f64_at(bytes, 16);
            next.request.max_drop = fields::f64_at(bytes, 24);
            next.body = body_at(bytes, 32);
        }
        3 => {
            next.window = window_at(bytes, 8);
            next.counts.cells = cell_count(next.window);
        }
        4 => next.counts = with_box_counted(next.counts, number_of(bytes)),
        5 => next.counts.states = number_of(bytes) + 1,
        _ => {}
    }
    next
}
