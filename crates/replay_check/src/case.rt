// A case: a scene that is read, and what is asked about it.
use crate::{asked, sheet};

// The digest of what reading answers and leaves in tables of the largest sizes, full of the sheet's byte, and of what is asked then.
pub(crate) fn read(scene: &[u8], asked: &[u8]) -> u64 {
    let fill = scene_records::byte_at(asked, sheet::FILL);
    let mut cells = [fill; 32768];
    let mut perms = [fill; 256];
    let mut shapes = [fill; 2048];
    let mut boxes = [fill; 12288];
    let bytes = sheet::front(scene, sheet::number(asked, sheet::SCENE));
    let answer = read_scene::read_scene(bytes, &mut cells, &mut perms, &mut shapes, &mut boxes);
    asked::answered(answer, &cells, &perms, &shapes, &boxes, asked)
}
