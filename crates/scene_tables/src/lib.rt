// What the records of a scene write into the lent tables (01, "Scenes and walkprint"): `entries` writes cells and shapes, `boxes` a box. Every function
// answers for every input: what does not fit a table is not written.
#![tactic(auto)]

mod boxes;
mod entries;

pub use boxes::put_box;
pub use entries::{clear_cells, put_entry, put_shape};
