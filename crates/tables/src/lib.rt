// Bad worlds (01, "Numbers given back", 3 BadWorld): whether the tables are no world that 01 allows. Every record is judged, used or not, in one
// pass over its table; the cell table and the permissions are never bad by their numbers.
#![tactic(auto)]

ghost use Rattle.std.specs.Prelude.{◌≡◌, ◌*◌, ◌/◌, ◌<◌, length};
ghost use Rattle.world.specs.Sizes.{Sizes};
ghost use Rattle.tables.specs.BadWorld.{from_to, each_of, box_rule, cell_bytes, bad_run, some, bad_shape, off_rule, bad_world};

use world::{Aabb, Point, Window, World};

// Whether a number is from -16 to 16: neither an infinity nor a NaN is.
#[tactic(auto, unfolding(crate::specs::BadWorld::from_to))]
fn from_to(x: f64) -> bool
    ensures { result ≡ from_to x }
{
    (-16.0 <= x) & (x <= 16.0)
}

// Whether each of a point's numbers is.
#[tactic(auto, unfolding(crate::specs::BadWorld::each_of))]
fn inside(p: Point) -> bool
    ensures { result ≡ each_of from_to p }
{
    from_to(p.x) & from_to(p.y) & from_to(p.z)
}

// Whether a box is by its rule.
#[tactic(auto, using(crate::specs::Laws::rule_is), unfolding(crate::specs::BadWorld::each, crate::specs::BadWorld::ordered))]
pub fn box_good(b: Aabb) -> bool
    ensures { result ≡ box_rule b }
{
    let least = b.min;
    let greatest = b.max;
    let ordered = (least.x <= greatest.x) & (least.y <= greatest.y) & (least.z <= greatest.z);
    ordered & (inside(least) & inside(greatest))
}

// How many bytes the cell table of a window has.
#[tactic(auto, using(world::specs::Sizes::layer_small, world::specs::Sizes::cells_small))]
fn cell_bytes(w: Window) -> usize
    requires { Sizes w }
    ensures { result ≡ cell_bytes w }
{
    8 * ((w.sx as usize) * (w.sy as usize) * (w.sz as usize))
}

// Whether a shape's run is longer than 16 or goes past the boxes. The sum cannot wrap.
#[tactic(auto, unfolding(crate::specs::BadWorld::bad_run))]
fn bad_run(first: u32, count: u32, boxes: usize) -> bool
    ensures { result ≡ bad_run boxes first count }
{
    let end = (first as usize) + (count as usize);
    (16 < count) | (boxes < end)
}

// Whether shape record i is bad, for so many boxes.
fn bad_shape(shapes: &[u8], boxes: usize, i: usize) -> bool
    requires { i < length shapes.now / 8 }
    ensures { result ≡ bad_shape shapes.now boxes i }
{
    let (first, count) = world::entry_at(shapes, i).unwrap();
    bad_run(first, count, boxes)
}

// Whether one of the shape records is.
fn bad_shapes(shapes: &[u8], boxes: usize) -> bool
    ensures { result ≡ some (bad_shape shapes.now boxes) (length shapes.now / 8) }
{
    (0..shapes.len() / 8).any(|i| bad_shape(shapes, boxes, i))
}

// Whether box record i is off its rule.
fn off_rule(boxes: &[u8], i: usize) -> bool
    requires { i < length boxes.now / 48 }
    ensures { result ≡ off_rule boxes.now i }
{
    !box_good(world::box_at(boxes, 48 * i).unwrap())
}

// Whether one of the box records is. Its twin is as short: the two read other records, by other definitions.
fn bad_boxes(boxes: &[u8]) -> bool
    ensures { result ≡ some (off_rule boxes.now) (length boxes.now / 48) }
{
    (0..boxes.len() / 48).any(|i| off_rule(boxes, i))
}

// Whether the tables are a bad world.
pub fn bad_world(world: World) -> bool
    ensures { result ≡ bad_world world.entry.window world.entry.cells.now world.entry.shapes.now world.entry.boxes.now }
{
    if world::size_above(world.window) {
        return true;
    }
    if world.cells.len() != cell_bytes(world.window) {
        return true;
    }
    if world.shapes.len() % 8 != 0 {
        return true;
    }
    if world.boxes.len() % 48 != 0 {
        return true;
    }
    if bad_shapes(world.shapes, world.boxes.len() / 48) {
        return true;
    }
    bad_boxes(world.boxes)
}
