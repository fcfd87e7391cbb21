// The search (01, "Numbers given back": "Search order").
ghost use Rattle.std.specs.Prelude.{◌≡◌, length};
ghost use Rattle.outcomes.specs.Outcomes.{outcome_number};
ghost use Rattle.search.specs.FindWalkPath.{found, nodes_after, front_after, index_after, out_after};
ghost use Rattle.c_records.specs.Records.{window_in, body_in};
ghost use Rattle.c_records.specs.Asked.{asked};
ghost use Rattle.c_answers.specs.Answers.{answer_written};

use crate::query::query_in;
use c_answers::put_answer;

// The outcome's number, 0 to 5: the list goes to `out`; `nodes`, `front` and `index` are the search's rooms, and `answer` gets the outcome, the list's count,
// and the retained and closed nodes.
#[unsafe(no_mangle)]
pub extern "C" fn walkprint_find_walk_path(
    window: &[u8],
    cells: &[u8],
    permissions: &[u8],
    shapes: &[u8],
    boxes: &[u8],
    request: &[u8],
    body: &[u8],
    nodes: &mut [u8],
    front: &mut [u8],
    index: &mut [u8],
    out: &mut [u8],
    answer: &mut [u8],
) -> u64
    ensures outcome { result ≡ outcome_number (found (window_in window.now) cells.now permissions.now shapes.now boxes.now (asked window.now request.now body.now) (body_in body.now) (length nodes.old) (length front.old) (length index.old) (length out.old)).outcome }
    ensures answer { answer.new ≡ answer_written (found (window_in window.now) cells.now permissions.now shapes.now boxes.now (asked window.now request.now body.now) (body_in body.now) (length nodes.old) (length front.old) (length index.old) (length out.old)) answer.old }
    ensures nodes { nodes.new ≡ nodes_after (window_in window.now) cells.now permissions.now shapes.now boxes.now (asked window.now request.now body.now) (body_in body.now) nodes.old front.old index.old out.old }
    ensures front { front.new ≡ front_after (window_in window.now) cells.now permissions.now shapes.now boxes.now (asked window.now request.now body.now) (body_in body.now) nodes.old front.old index.old out.old }
    ensures index { index.new ≡ index_after (window_in window.now) cells.now permissions.now shapes.now boxes.now (asked window.now request.now body.now) (body_in body.now) nodes.old front.old index.old out.old }
    ensures out { out.new ≡ out_after (window_in window.now) cells.now permissions.now shapes.now boxes.now (asked window.now request.now body.now) (body_in body.now) nodes.old front.old index.old out.old }
{
    let query = query_in(window, cells, permissions, shapes, boxes, request, body);
    let a = search::find_walk_path(query, nodes, front, index, out);
    put_answer(a, answer)
}
