// A whole scene in one slice (01, "Scenes and walkprint"): its 64-byte records are taken in one behind another. A last partial one is handed on as it is,
// and is bad at its own number.
#![tactic(auto)]

ghost use Rattle.std.specs.Prelude.{◌≡◌};
ghost use Rattle.scene_state.specs.Answers.{scene_answer};
ghost use Rattle.read_scene.specs.Whole.{read};

use scene_state::{Scene, SceneError};

// A scene and the part of each lent table that it made; the first bad record, and the tables hold what those before it made; or no room, and nothing is
// written. The tables come one by one, as each is lent for writing.
pub fn read_scene(
    bytes: &[u8],
    cells: &mut [u8],
    perms: &mut [u8],
    shapes: &mut [u8],
    boxes: &mut [u8],
) -> Result<Scene, SceneError>
    ensures result_value { scene_answer result ≡ (read bytes.now cells.old perms.old shapes.old boxes.old).answer }
    ensures cells_after { cells.new ≡ (read bytes.now cells.old perms.old shapes.old boxes.old).tables.cells }
    ensures perms_after { perms.new ≡ (read bytes.now cells.old perms.old shapes.old boxes.old).tables.perms }
    ensures shapes_after { shapes.new ≡ (read bytes.now cells.old perms.old shapes.old boxes.old).tables.shapes }
    ensures boxes_after { boxes.new ≡ (read bytes.now cells.old perms.old shapes.old boxes.old).tables.boxes }
{
    let mut so_far = scene::begin(cells, perms, shapes, boxes);
    for piece in bytes.chunks(64) {
        so_far = scene::take_record(so_far, piece, cells, perms, shapes, boxes);
    }
    scene::end(so_far)
}
