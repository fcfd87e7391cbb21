// The ends of a search (01, "Numbers given back", Search order: "goal in range, start standable, goal standable"), as the search asks for them; the walk-back asks
// for one after the other, to tell which is bad, and takes its laws.
#![tactic(auto)]

ghost use Rattle.std.specs.Prelude.{◌≡◌};
ghost use Rattle.world.specs.Space.{space_of};
ghost use Rattle.ends.specs.Ends.{ends_good};

use world::Query;

// Whether the goal is in range and both ends are standable.
#[tactic(auto, unfolding(crate::specs::Ends::ends_good))]
pub fn ends_good(query: Query) -> bool
    ensures { result ≡ ends_good (space_of query.entry.world) query.entry.request query.entry.body }
{
    let r = query.request;
    places::in_range(r, r.goal)
        && places::standable(query.world, query.body, r.start)
        && places::standable(query.world, query.body, r.goal)
}
