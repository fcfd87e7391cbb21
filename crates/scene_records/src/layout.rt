// The fields of a scene record (01, "Scenes and walkprint").
ghost use Rattle.std.specs.Prelude.{◌≡◌, get_or};
ghost use Rattle.scene_records.specs.Layout.{number_of, body_at, window_at, cell_count};

use world::{Body, Window};

// The byte at an offset.
pub fn byte_at(bytes: &[u8], at: usize) -> u8
    ensures { result ≡ get_or bytes.now at 0 }
{
    bytes.get(at).copied().unwrap_or(0)
}

// The number n.
pub fn number_of(bytes: &[u8]) -> u32
    ensures { result ≡ number_of bytes.now }
{
    fields::u32_at(bytes, 4)
}

// A body from an offset on.
#[tactic(auto, unfolding(crate::specs::Layout::body_at, world::specs::Space::point_at))]
pub fn body_at(bytes: &[u8], at: u32) -> Body
    ensures { result ≡ body_at bytes.now at }
{
    let three = world::point_at(bytes, at as usize);
    Body {
        width: three.x,
        height: three.y,
        step_height: three.z,
    }
}

// A window from an offset on.
#[tactic(auto, unfolding(crate::specs::Layout::window_at))]
pub fn window_at(bytes: &[u8], at: u32) -> Window
    ensures { result ≡ window_at bytes.now at }
{
    let x = at as usize;
    Window {
        x: fields::i32_at(bytes, x),
        y: fields::i32_at(bytes, x + 4),
        z: fields::i32_at(bytes, x + 8),
        sx: fields::u32_at(bytes, x + 12),
        sy: fields::u32_at(bytes, x + 16),
        sz: fields::u32_at(bytes, x + 20),
    }
}

// How many cells a window has; one with a size above 256 has none.
pub fn cell_count(w: Window) -> u32
    ensures { result ≡ cell_count w }
{
    if world::size_above(w) {
        0
    } else {
        w.sx * w.sy * w.sz
    }
}
