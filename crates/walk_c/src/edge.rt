// One edge of the graph (01, The graph), judged as the walk-back judges, and where there is none the first reason (02, No. 3).
ghost use Rattle.std.specs.Prelude.{◌≡◌};
ghost use Rattle.world.specs.Space.{space};
ghost use Rattle.moves.specs.Moves.{check_number};
ghost use Rattle.edges.specs.Reasons.{edge_check};
ghost use Rattle.questions.specs.Questions.{judged};
ghost use Rattle.c_records.specs.Records.{window_in, body_in};
ghost use Rattle.c_records.specs.Asked.{asked};

use crate::query::query_in;
use c_answers::edge_number;
use questions::Judgement;
use world::Point;

// 3 BadWorld; 1 for an invalid request; 4 TooLarge, the budget not read; then the number of the edge from one point to another: 130 Walk, 131 Step, 132 Jump,
// 133 Drop, or the first reason why there is none, 101 to 109.
#[unsafe(no_mangle)]
pub extern "C" fn walkprint_edge(
    window: &[u8],
    cells: &[u8],
    permissions: &[u8],
    shapes: &[u8],
    boxes: &[u8],
    request: &[u8],
    body: &[u8],
    from_x: f64,
    from_y: f64,
    from_z: f64,
    to_x: f64,
    to_y: f64,
    to_z: f64,
) -> u64
    ensures { result ≡ judged (window_in window.now) cells.now shapes.now boxes.now (asked window.now request.now body.now) (body_in body.now) 3 1 4 (check_number (edge_check (space (window_in window.now) cells.now permissions.now shapes.now boxes.now) (asked window.now request.now body.now) (body_in body.now) (record { x = from_x; y = from_y; z = from_z }) (record { x = to_x; y = to_y; z = to_z }))) }
{
    let query = query_in(window, cells, permissions, shapes, boxes, request, body);
    // these numbers are this call's own: the walk-back tells an invalid request otherwise
    match questions::judge(query) {
        Err(Judgement::BadWorld) => 3,
        Err(Judgement::Invalid) => 1,
        Err(Judgement::TooLarge) => 4,
        Ok(()) => {
            let from = Point {
                x: from_x,
                y: from_y,
                z: from_z,
            };
            let to = Point {
                x: to_x,
                y: to_y,
                z: to_z,
            };
            edge_number(edges::edge_check(query, from, to))
        }
    }
}
