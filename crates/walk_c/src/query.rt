// What the calls about a world are asked: the records and the tables that a caller lends, as one query.
ghost use Rattle.std.specs.Prelude.{◌≡◌};
ghost use Rattle.c_records.specs.Records.{window_in, body_in};
ghost use Rattle.c_records.specs.Asked.{asked};

use c_records::question_in;
use world::{Query, World};

// The query of three records and four tables.
#[tactic(auto, unfolding(c_records::specs::Asked::question_in))]
pub(crate) fn query_in<'a>(
    window: &[u8],
    cells: &'a [u8],
    permissions: &'a [u8],
    shapes: &'a [u8],
    boxes: &'a [u8],
    request: &[u8],
    body: &[u8],
) -> Query<'a>
    ensures { result ≡ record { world = record { window = window_in window.now; cells = cells.entry; perms = permissions.entry; shapes = shapes.entry; boxes = boxes.entry }; request = asked window.now request.now body.now; body = body_in body.now } }
{
    let q = question_in(window, request, body);
    let world = World {
        window: q.window,
        cells,
        perms: permissions,
        shapes,
        boxes,
    };
    Query {
        world,
        request: q.request,
        body: q.body,
    }
}
