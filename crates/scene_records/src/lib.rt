// Scene records (01, "Scenes and walkprint"): what the 64 bytes of a record say. A field that is not there is 0, so every length is answered for.
#![tactic(auto)]

mod layout;

pub use layout::{body_at, byte_at, cell_count, number_of, window_at};
