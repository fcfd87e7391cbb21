// A mob's walking policy turned into permissions (01, Policy): how a door is met, the permission byte of a block state, and the permission table of a flag
// table. What a mob's search asks besides is the crate `mob_request`.
#![tactic(auto)]

pub mod doors;
pub mod flags;
pub mod policy;

pub use doors::Passage;
pub use flags::{Flags, has_bit};
pub use policy::{BadTable, WalkPolicy};
