// One record of a scene (01, "Scenes and walkprint"): the state behind it, and what it writes into the tables.
ghost use Rattle.std.specs.Prelude.{◌≡◌, set};
ghost use Rattle.scene_state.specs.Answers.{progress_answer};
ghost use Rattle.scene.specs.Progress.{tables_of, further, tables_further};

use scene_records::{byte_at, number_of};
use scene_state::{Reading, SceneError};

// The permission of state n.
fn put_permission(perms: &mut [u8], n: u32, permission: u8)
    ensures { perms.new ≡ set perms.old n permission }
{
    // By index: where `get_mut` has no such place, its proof does not know that the table stays.
    let at = n as usize;
    if at < perms.len() {
        perms[at] = permission;
    }
}

// The four tables are lent one by one, as `begin` and the C call have them: a struct of four `&mut` would have to be lent anew for each record.
//
// One record more: kind 3 makes all cells unfilled, kind 4 adds a box and counts it for its shape, kind 5 sets a permission, kind 6 fills. A bad record
// writes nothing, and after a refusal nothing is read or written.
pub fn take_record(
    progress: Result<Reading, SceneError>,
    bytes: &[u8],
    cells: &mut [u8],
    perms: &mut [u8],
    shapes: &mut [u8],
    boxes: &mut [u8],
) -> Result<Reading, SceneError>
    ensures answer { progress_answer result ≡ further (progress_answer progress) bytes.now }
    ensures cells { cells.new ≡ (tables_further (progress_answer progress) bytes.now (tables_of cells.old perms.old shapes.old boxes.old)).cells }
    ensures permissions { perms.new ≡ (tables_further (progress_answer progress) bytes.now (tables_of cells.old perms.old shapes.old boxes.old)).perms }
    ensures shapes { shapes.new ≡ (tables_further (progress_answer progress) bytes.now (tables_of cells.old perms.old shapes.old boxes.old)).shapes }
    ensures boxes { boxes.new ≡ (tables_further (progress_answer progress) bytes.now (tables_of cells.old perms.old shapes.old boxes.old)).boxes }
{
    let state = progress?;
    let next = scene_step::next_state(state, bytes)?;
    let kind = next.kind;
    let n = number_of(bytes);
    match kind {
        3 => scene_tables::clear_cells(cells, next.counts.cells),
        4 => {
            let first = state.counts.boxes;
            scene_tables::put_shape(shapes, state.counts.shapes, n, first, next.counts.last);
            scene_tables::put_box(boxes, first, bytes);
        }
        5 => put_permission(perms, n, byte_at(bytes, 8)),
        6 => scene_fills::fill_cells(state.window, bytes, cells),
        _ => {}
    }
    Ok(next)
}
