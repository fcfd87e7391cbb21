// A search a little at a time (02, No. 10): some expansions more. The crate `openings` has its begin.
ghost use Rattle.std.specs.Prelude.{◌≡◌};
ghost use Rattle.outcomes.specs.Ticks.{Gives, GoesFrom};
ghost use Rattle.search.specs.Ticks.{continued_for, expanded_for};

use crate::Task;
use crate::turns::spin;
use outcomes::{Refusal, Slice};
use rooms::Counts;
use visits::Aim;
use world::Query;

// The bytes of an index for as many nodes as a search can have. It is the call's own: none is lent, and none is kept.
const INDEX: usize = 32768;

// At most so many expansions, 1 to 4,096, of the search that the rooms and the counts hold.
pub fn continue_search(
    query: Query,
    c: Counts,
    expansions: u64,
    nodes: &mut [u8],
    front: &mut [u8],
    out: &mut [u8],
) -> Result<Slice, Refusal>
    ensures gives { Gives (continued_for query.entry nodes.old front.old out.old c expansions) result nodes.new front.new out.new }
    ensures goes_from { GoesFrom (expanded_for query.entry nodes.old front.old out.old c expansions) result nodes.new front.new }
{
    refusals::judge_call(query, nodes.len(), front.len(), out.len(), false)?;
    let request = query.request;
    let good = progress::good_progress(request, nodes, front, c, expansions);
    if !good {
        return Err(Refusal::BadProgress);
    }
    let budget = request.node_budget as usize;
    let goal = words::feet_of(request.goal);
    let aim = Aim { budget, goal };
    let task = Task { query, aim };
    let mut index = [0u8; INDEX];
    let turn = spin(task, nodes, front, &mut index, c, expansions as usize);
    let counts = outcomes::counts_of(turn);
    if conclusion::goes_on(front, turn) {
        return Ok(Slice::Searching(counts));
    }
    let answer = conclusion::conclude(nodes, front, goal, turn, out);
    Ok(Slice::Ended(answer.outcome, answer.count, counts))
}
