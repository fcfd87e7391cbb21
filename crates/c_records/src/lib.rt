// What a call from another language hands over (01, "Tables, little-endian records"), as the values that the proved calls take. `walk_c` has the calls.
//
// `question` is what is asked of a world: its window, the request and the body. `mob` is the same of a mob's search, whose policy is a number, which
// `wishes` reads. `whole` has what becomes of records that are cut short.
#![tactic(auto)]

pub mod mob;
pub mod question;
pub(crate) mod whole;
pub(crate) mod wishes;

pub use mob::{Mob, mob_in};
pub use question::{Question, question_in};
