// Reading a scene (01, "Scenes and walkprint").
ghost use Rattle.std.specs.Prelude.{◌≡◌};
ghost use Rattle.read_scene.specs.Whole.{read};
ghost use Rattle.c_scene.specs.Scenes.{scene_number, scene_written};

use c_scene::put_answer;

// 0, and the request, the body, the window and the sizes in use in `made`; 7 BadScene, and the bad record's number in the first 8 bytes of `made`; or
// 5 NoRoom, and nothing is written.
#[unsafe(no_mangle)]
pub extern "C" fn walkprint_read_scene(
    bytes: &[u8],
    cells: &mut [u8],
    permissions: &mut [u8],
    shapes: &mut [u8],
    boxes: &mut [u8],
    made: &mut [u8],
) -> u64
    ensures number { result ≡ scene_number (read bytes.now cells.old permissions.old shapes.old boxes.old).answer }
    ensures made { made.new ≡ scene_written (read bytes.now cells.old permissions.old shapes.old boxes.old).answer made.old }
    ensures cells { cells.new ≡ (read bytes.now cells.old permissions.old shapes.old boxes.old).tables.cells }
    ensures permissions { permissions.new ≡ (read bytes.now cells.old permissions.old shapes.old boxes.old).tables.perms }
    ensures shapes { shapes.new ≡ (read bytes.now cells.old permissions.old shapes.old boxes.old).tables.shapes }
    ensures boxes { boxes.new ≡ (read bytes.now cells.old permissions.old shapes.old boxes.old).tables.boxes }
{
    let a = read_scene::read_scene(bytes, cells, permissions, shapes, boxes);
    put_answer(a, made)
}
