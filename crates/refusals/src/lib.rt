// Whether a search begins (01, "Numbers given back": "Search order") or is continued (02, No. 10): every answer that comes before the first expansion, but for
// 12, which is `progress`.
#![tactic(auto)]

ghost use Rattle.std.specs.Prelude.{◌≡◌};
ghost use Rattle.refusals.specs.Refusals.{call_answer, search_answer};

use outcomes::Outcome;
use world::Query;

// A call judged as far as its rooms, in 01's order: refused with an outcome, or passed. Of the three rooms only their lengths count, and of an index whether its
// size is wrong.
pub fn judge_call(
    query: Query,
    nodes: usize,
    front: usize,
    out: usize,
    wrong_index: bool,
) -> Result<(), Outcome>
    ensures { result ≡ call_answer query.entry nodes front out wrong_index }
{
    let r = query.request;
    // not by `questions::judge`: that says Invalid where a search says Unreachable, and judges no budget
    if tables::bad_world(query.world) {
        return Err(Outcome::BadWorld);
    }
    if !request::valid_request(r, query.body) {
        return Err(Outcome::Unreachable);
    }
    if request::too_large(r, query.body) {
        return Err(Outcome::TooLarge);
    }
    let n = r.node_budget as usize;
    if (nodes / 64 < n) | (front / 24 < n) | (out / 48 <= n) | wrong_index {
        return Err(Outcome::NoRoom);
    }
    Ok(())
}

// A search judged: the call, then its ends and its budget.
pub fn judge(
    query: Query,
    nodes: usize,
    front: usize,
    out: usize,
    wrong_index: bool,
) -> Result<(), Outcome>
    ensures { result ≡ search_answer query.entry nodes front out wrong_index }
{
    judge_call(query, nodes, front, out, wrong_index)?;
    if !ends::ends_good(query) {
        return Err(Outcome::Unreachable);
    }
    if query.request.node_budget == 0 {
        return Err(Outcome::BudgetExceeded);
    }
    Ok(()) // the search begins
}
