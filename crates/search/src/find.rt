// The public call (01, "Numbers given back": "Search order"): the start, as many expansions as the budget, the list, and the frontier and index rooms all zero.
ghost use Rattle.std.specs.Prelude.{◌≡◌, length};
ghost use Rattle.search.specs.FindWalkPath.{found_for, nodes_for, front_for, index_for, out_for};

use crate::Task;
use crate::turns::spin;
use outcomes::Answer;
use visits::Aim;
use world::Query;

// A way from the request's start to its goal, through the world of the query: the list is written to `out`; `nodes`, `front` and `index` are the search's
// rooms.
pub fn find_walk_path(
    query: Query,
    nodes: &mut [u8],
    front: &mut [u8],
    index: &mut [u8],
    out: &mut [u8],
) -> Answer
    ensures result_value { result ≡ found_for query.entry (length nodes.old) (length front.old) (length index.old) (length out.old) }
    ensures nodes_after { nodes.new ≡ nodes_for query.entry nodes.old front.old index.old out.old }
    ensures front_after { front.new ≡ front_for query.entry nodes.old front.old index.old out.old }
    ensures index_after { index.new ≡ index_for query.entry nodes.old front.old index.old out.old }
    ensures out_after { out.new ≡ out_for query.entry nodes.old front.old index.old out.old }
{
    let request = query.request;
    let wrong_index = index::wrong_size(index.len(), request.node_budget);
    if let Err(outcome) = refusals::judge(query, nodes.len(), front.len(), out.len(), wrong_index) {
        return outcomes::without_search(outcome);
    }
    let budget = request.node_budget as usize;
    let goal = words::feet_of(request.goal);
    let aim = Aim { budget, goal };
    let task = Task { query, aim };
    writes::zero(index); // what it held decides nothing
    let c = visits::begin(nodes, front, budget, words::feet_of(request.start));
    let turn = spin(task, nodes, front, index, c, budget);
    writes::zero(index);
    conclusion::conclude(nodes, front, goal, turn, out)
}
