// The begin of a search in slices (02, No. 10: "Begin makes 01's checks, zeroes the frontier room and retains the start"). `continue_search` of the crate `search`
// goes on from there. It needs no expansion, so it stands apart from that crate, whose checks are long.
#![tactic(auto)]

ghost use Rattle.world.specs.Space.{space_of};
ghost use Rattle.outcomes.specs.Ticks.{Gives, GoesFrom};
ghost use Rattle.openings.specs.Openings.{start_state, begun_for};

use outcomes::{Refusal, Slice};
use world::Query;

// The start retained, in rooms for a search; of the output only the length counts.
pub fn begin_search(
    query: Query,
    nodes: &mut [u8],
    front: &mut [u8],
    out: &[u8],
) -> Result<Slice, Refusal>
    ensures gives { Gives (begun_for query.entry nodes.old front.old out.now) result nodes.new front.new out.now }
    ensures goes_from { GoesFrom (start_state (space_of query.entry.world) query.entry.request query.entry.body) result nodes.new front.new }
{
    refusals::judge(query, nodes.len(), front.len(), out.len(), false)?;
    let r = query.request;
    writes::zero(front); // all of it: stale records past the budget would wait
    let counts = visits::begin(
        nodes,
        front,
        r.node_budget as usize,
        words::feet_of(r.start),
    );
    Ok(Slice::Searching(counts))
}
