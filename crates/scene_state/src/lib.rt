// What has been read of a scene (01, "Scenes and walkprint"), a state by value: `state` has the types and the refusals, `ends` judges the rooms
// before the first record and says what stands where the input ends.
#![tactic(auto)]

mod ends;
pub mod state;

pub use ends::{begin, end};
pub use state::{InUse, Reading, Scene, SceneError};
