// What walkprint prints of a scene (01, "Scenes and walkprint"): `telling` searches it and says what there is to print, `moving` moves the bytes, records from
// standard input and lines to standard output. `scene` takes the records in; `print_lines` has the lines.
#![tactic(auto)]

mod moving;
mod telling;

pub use moving::print_scene;
pub use telling::tell;
