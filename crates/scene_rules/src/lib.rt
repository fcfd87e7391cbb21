// When a scene record is good where it stands (01, "Scenes and walkprint"): after a record of the last kind, with so much made of each table.
//
// `zeros` judges the bytes that are zero in every good record, `rules` the order, each kind's rule and the whole. A record of any length is answered for.
#![tactic(auto)]

mod rules;
mod zeros;

pub use rules::good_record;

// How much of each table the records so far have made, and how many boxes the last shape has.
#[derive(Clone, Copy)]
pub struct Counts {
    pub cells: u32,
    pub states: u32,
    pub shapes: u32,
    pub boxes: u32,
    pub last: u32,
}
