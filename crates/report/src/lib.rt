// What walkprint prints (01, "Scenes and walkprint"): `words` has the words, `lines` the lines, and numbers in digits are the crate `digits`. Every byte
// of the output is decided here; a program only hands the lines on. The length of a list is the crate `lengths`.
#![tactic(auto)]

pub mod lines;
mod words;

pub use lines::{Told, first_line, waypoint_line};
