// What reading a scene (01, "Scenes and walkprint") gives back: a record of 168 bytes with the request, the body, the window and the sizes in use.
ghost use Rattle.std.specs.Prelude.{◌≡◌, ◌+◌, ◌*◌};
ghost use Rattle.c_scene.specs.Scenes.{with_scene};

use floats::bits_of;
use scene_state::Scene;

// Two numbers of 32 bits in one word, the first in its lower half.
fn word(low: u32, high: u32) -> u64
    ensures { result ≡ low + 4294967296 * high }
{
    (low as u64) + 4294967296 * (high as u64)
}

// The whole record, where it fits.
pub(crate) fn put_scene(x: Scene, made: &mut [u8])
    ensures { made.new ≡ with_scene x made.old }
{
    let w = x.window;
    let words = [
        bits_of(x.request.start.x),
        bits_of(x.request.start.y),
        bits_of(x.request.start.z),
        bits_of(x.request.goal.x),
        bits_of(x.request.goal.y),
        bits_of(x.request.goal.z),
        bits_of(x.request.max_range),
        bits_of(x.request.step_height),
        bits_of(x.request.jump_height),
        bits_of(x.request.max_drop),
        x.request.node_budget,
        bits_of(x.body.width),
        bits_of(x.body.height),
        bits_of(x.body.step_height),
        word(stores::signed_bits(w.x), stores::signed_bits(w.y)),
        word(stores::signed_bits(w.z), w.sx),
        word(w.sy, w.sz),
        x.in_use.cells as u64,
        x.in_use.perms as u64,
        x.in_use.shapes as u64,
        x.in_use.boxes as u64,
    ];
    records::put_record(made, 0, &words);
}
