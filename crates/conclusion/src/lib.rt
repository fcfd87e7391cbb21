// How the end of a run of the search becomes its answer (01, "Search"): the outcome, the counts, the list written, and the frontier room all zero.
#![tactic(auto)]

ghost use Rattle.std.specs.Prelude.{◌≡◌, length, replicate};
ghost use Rattle.rooms.specs.Lists.{written};
ghost use Rattle.outcomes.specs.Outcomes.{counts_of, list_in, end_at, answer_of};
ghost use Rattle.conclusion.specs.GoesOn.{goes_on};
ghost use Rattle.conclusion.specs.Laws.{told};

use outcomes::{Answer, Outcome, Turn, verdict};
use rooms::{Counts, Feet};

// The answer of a search that found a list, of so many points.
fn found(c: Counts, count: usize) -> Answer
    ensures { result ≡ told c count }
{
    Answer {
        outcome: Outcome::Found,
        count,
        retained: c.retained,
        closed: c.closed,
    }
}

// The answer that the end of a run makes of its node room, with its list written; nothing waits any more.
pub fn conclude(nodes: &[u8], front: &mut [u8], goal: Feet, turn: Turn, out: &mut [u8]) -> Answer
    ensures result_value { result ≡ answer_of (counts_of turn) (end_at nodes.now goal turn) }
    ensures out_after { out.new ≡ written (list_in (end_at nodes.now goal turn)) out.old }
    ensures front_after { front.new ≡ replicate (length front.old) 0 }
{
    writes::zero(front);
    match turn {
        Turn::Rest(c) | Turn::Going(c) => verdict(c),
        Turn::At(c, k) => found(c, lists::list_at(nodes, c.retained, k, out)),
        Turn::By(c, k, label) => found(c, lists::list_by(nodes, c.retained, k, goal, label, out)),
    }
}

// Whether a search goes on after an expansion: it has not ended, and a node waits. `Going` alone says only that this expansion did not end it.
pub fn goes_on(front: &[u8], turn: Turn) -> bool
    ensures { result ≡ goes_on front.now turn }
{
    let Turn::Going(c) = turn else {
        return false;
    };
    let n = c.retained;
    scans::pick(front, 0, n) < n
}
