// The state behind a record of a scene (01, "Scenes and walkprint"): the record is judged, and a good one leads to the next state. The tables are not
// written here.
#![tactic(auto)]

mod after;

ghost use Rattle.std.specs.Prelude.{◌≡◌};
ghost use Rattle.scene_state.specs.Answers.{progress_answer};
ghost use Rattle.scene_step.specs.Next.{step};

use scene_records::byte_at;
use scene_state::{Reading, SceneError};

// The state behind the record, or 7 BadScene with the record's number.
#[tactic(auto, using(crate::specs::Laws::allowed), unfolding(crate::specs::Next::step))]
pub fn next_state(state: Reading, bytes: &[u8]) -> Result<Reading, SceneError>
    ensures { progress_answer result ≡ step state bytes.now }
{
    if !scene_rules::good_record(state.kind, state.counts, bytes) {
        return Err(SceneError::BadScene(state.number));
    }
    let kind = byte_at(bytes, 0);
    Ok(after::next(state, bytes, kind))
}
