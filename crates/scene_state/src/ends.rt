// How reading a scene begins and how it ends (01, "Scenes and walkprint").
ghost use Rattle.std.specs.Prelude.{◌≡◌};
ghost use Rattle.scene_state.specs.State.{in_use, empty};
ghost use Rattle.scene_state.specs.Answers.{progress_answer, begun, scene_answer, scene_of};

use crate::state::{InUse, Reading, Scene, SceneError};
use scene_rules::Counts;
use world::{Body, Point, Request, Window};

// A state before the first record.
#[tactic(auto, unfolding(crate::specs::State::empty))]
fn empty() -> Reading
    ensures { result ≡ empty }
{
    let zero = Point {
        x: 0.0,
        y: 0.0,
        z: 0.0,
    };
    Reading {
        number: 0,
        kind: 0,
        request: Request {
            start: zero,
            goal: zero,
            max_range: 0.0,
            node_budget: 0,
            step_height: 0.0,
            jump_height: 0.0,
            max_drop: 0.0,
        },
        body: Body {
            width: 0.0,
            height: 0.0,
            step_height: 0.0,
        },
        window: Window {
            x: 0,
            y: 0,
            z: 0,
            sx: 0,
            sy: 0,
            sz: 0,
        },
        counts: Counts {
            cells: 0,
            states: 0,
            shapes: 0,
            boxes: 0,
            last: 0,
        },
    }
}

// The state before the first record, if the lent tables have room for any scene; nothing is written. There is no window yet, and so no world.
#[tactic(auto, unfolding(crate::specs::Answers::begun))]
pub fn begin(cells: &[u8], perms: &[u8], shapes: &[u8], boxes: &[u8]) -> Result<Reading, SceneError>
    ensures { progress_answer result ≡ begun cells.now perms.now shapes.now boxes.now }
{
    let room = (32768 <= cells.len()) & (256 <= perms.len());
    if room & (2048 <= shapes.len()) & (12288 <= boxes.len()) {
        return Ok(empty());
    }
    Err(SceneError::NoRoom)
}

// How many bytes of each table are in use.
#[tactic(auto, unfolding(crate::specs::State::in_use))]
fn in_use(c: Counts) -> InUse
    ensures { result ≡ in_use c }
{
    InUse {
        cells: 8 * (c.cells as usize),
        perms: c.states as usize,
        shapes: 8 * (c.shapes as usize),
        boxes: 48 * (c.boxes as usize),
    }
}

// What stands where the input ends: a scene and the part of each lent table that it made, or a refusal. One of the first three records may be missing.
#[tactic(auto, unfolding(crate::specs::Answers::ended, crate::specs::Answers::scene_of))]
pub fn end(progress: Result<Reading, SceneError>) -> Result<Scene, SceneError>
    ensures { scene_answer result ≡ scene_of (progress_answer progress) }
{
    let state = progress?;
    if state.kind < 3 {
        return Err(SceneError::BadScene(state.number));
    }
    Ok(Scene {
        request: state.request,
        body: state.body,
        window: state.window,
        in_use: in_use(state.counts),
    })
}
