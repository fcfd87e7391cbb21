// The search (01, "Search"): one expansion of a node on the rooms, as the theory's run of 01's graph under 01's policy.
//
// `columns` goes through the columns around the node's point, in 01's order, and visits the steps of each, upwards (`strides`). `turns` has the whole expansion: pick,
// close, try the connector, then the columns; and so many of them. `find` is the whole search: as many expansions as the budget, or fewer where it ends; `ticks`
// goes on with one by so many. What they answer is the crate `outcomes`, whether they begin `refusals` and `progress`.
#![tactic(auto)]

pub(crate) mod columns;
mod find;
mod ticks;
pub(crate) mod turns;

pub use find::find_walk_path;
use rooms::Counts;
use sides::Sides;
pub use ticks::continue_search;
use visits::Aim;
use world::Query;

// What is searched: what is asked of a world; and for which goal, with how many nodes.
#[derive(Clone, Copy)]
pub struct Task<'a> {
    pub query: Query<'a>,
    pub aim: Aim,
}

// The index of an expansion, and how many of the nodes are entered in it: these are found by it, the others by a scan.
#[derive(Clone, Copy)]
pub struct Entered<'a> {
    pub index: &'a [u8],
    pub known: usize,
}

// What the columns so far have come to: the counts, and the side answers.
#[derive(Clone, Copy)]
pub struct Around {
    pub counts: Counts,
    pub sides: Sides,
}
