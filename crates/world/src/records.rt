// The records of the tables (01, "Tables, little-endian records"): a window's sizes, an entry of 8 bytes, a point. Each is read once.
ghost use Rattle.std.specs.Prelude.{◌≡◌};
ghost use Rattle.world.specs.Space.{entry_at, point_at, box_here};
ghost use Rattle.world.specs.Sizes.{size_above};

use crate::{Aabb, Point, Window};

// Whether a size of the window is above 256.
pub fn size_above(w: Window) -> bool
    ensures { result ≡ size_above w }
{
    (256 < w.sx) | (256 < w.sy) | (256 < w.sz)
}

// The two numbers of record i of a table of 8-byte records, by one read of 8 bytes: of the record's own part, which the compiler sees to be long enough.
pub fn entry_at(s: &[u8], i: usize) -> Option<(u32, u32)>
    ensures { result ≡ entry_at s.now i }
{
    if s.len() / 8 <= i {
        return None;
    }
    let at = 8 * i;
    let both = fields::u64_at(&s[at..at + 8], 0);
    let low = (both % 4294967296) as u32;
    let high = (both / 4294967296) as u32;
    Some((low, high))
}

// The point whose three numbers stand from an offset on; an offset past the table is as good as its end.
pub fn point_at(s: &[u8], at: usize) -> Point
    ensures { result ≡ point_at s.now at }
{
    let end = s.len();
    let from = if at < end { at } else { end };
    Point {
        x: fields::f64_at(s, from),
        y: fields::f64_at(s, from + 8),
        z: fields::f64_at(s, from + 16),
    }
}

// The box record at an offset of the box table, or of a part of it.
pub fn box_at(s: &[u8], at: usize) -> Option<Aabb>
    ensures { result ≡ box_here s.now at }
{
    if !fields::fits(s.len(), at, 48) {
        return None;
    }
    Some(Aabb {
        min: point_at(s, at),
        max: point_at(s, at + 24),
    })
}
