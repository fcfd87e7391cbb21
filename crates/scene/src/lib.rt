// The scene reader (01, "Scenes and walkprint"): a scene is read record by record, so it has no length limit. `begin` judges the rooms, `take_record`
// takes one record in, `end` says what stands when the input ends. What has been read is a state by value (`scene_state`); the tables are the caller's.
#![tactic(auto)]

mod reader;

pub use reader::take_record;
pub use scene_state::{InUse, Reading, Scene, SceneError, begin, end};
