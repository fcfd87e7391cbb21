// What reading a scene answers, for a call from another language: its number (01, "Numbers given back"), and a record in a slice that the caller lends.
// `made` writes the record of a whole scene; `walk_c` has the call.
#![tactic(auto)]

pub(crate) mod made;

ghost use Rattle.std.specs.Prelude.{◌≡◌};
ghost use Rattle.scene_state.specs.Answers.{scene_answer};
ghost use Rattle.c_scene.specs.Scenes.{scene_number, scene_written};

use crate::made::put_scene;
use scene_state::{Scene, SceneError};

// 0, and the scene's record, where it fits; 7 BadScene, and the bad record's number in the first 8 bytes; or 5 NoRoom, and nothing is written.
// The numbers are given by hand, since each goes with what is written.
pub fn put_answer(a: Result<Scene, SceneError>, made: &mut [u8]) -> u64
    ensures value { result ≡ scene_number (scene_answer a) }
    ensures made_after { made.new ≡ scene_written (scene_answer a) made.old }
{
    match a {
        Ok(x) => {
            put_scene(x, made);
            0
        }
        Err(SceneError::BadScene(k)) => {
            stores::put_u64(made, 0, k);
            7
        }
        Err(SceneError::NoRoom) => 5,
    }
}
