// walkprint for programs in other languages (01, Modules 7: "the server calls it through a C interface"): each function is a proved call on numbers and
// byte slices, and include/walkprint.h says how C sees them. A slice is a pointer and a length.
//
// Each file has one call, `roots` and `slices` two; `query` has what the calls about a world are asked, `float` how a number is told. `c_records` reads what a caller hands over; `c_answers`, `c_scene` and `answer_words` write what it
// gets back.
#![tactic(auto)]

pub mod apex;
pub mod edge;
pub(crate) mod float;
pub mod length;
pub mod mob;
pub mod path;
pub(crate) mod query;
pub mod roots;
pub mod scenes;
pub mod slices;
pub mod version;
pub mod walked;
pub mod word;
