// The space that the tables are (01, "Tables, little-endian records"): which record of the cell table a cell is, and what its state and its shape make of it.
// Nothing is divided but by a power of two.
#![tactic(auto)]

ghost use Rattle.std.specs.Prelude.{◌≡◌, ◌-ℤ◌};
ghost use Rattle.world.specs.Space.{place, record_of, entry_in, of_parts, cell_at};
ghost use Rattle.space.specs.Laws.{far};

use world::{Cell, Window, World};

// How far a number is from an origin, or 256, which no place in a row is, where it is outside. A size above 256, which no window of a good world
// has, holds nothing: so no index below can wrap. (256 and no Option: three of them are compared with no branch between.)
fn along(origin: i32, size: u32, at: i64) -> usize
    ensures { result ≡ far (place (at -ℤ origin) size) }
{
    let low = origin as i64;
    if (size <= 256) & (low <= at) & (at < low + (size as i64)) {
        (at - low) as usize
    } else {
        256
    }
}

// The two numbers of the record of the cell table that a cell is: x runs fastest, then z, then y.
fn entry_of(w: Window, cells: &[u8], x: i64, y: i64, z: i64) -> Option<(u32, u32)>
    ensures { result ≡ entry_in cells.now (record_of w x y z) }
{
    let i = along(w.x, w.sx, x);
    let j = along(w.y, w.sy, y);
    let k = along(w.z, w.sz, z);
    if (i < 256) & (j < 256) & (k < 256) {
        return world::entry_at(cells, i + (w.sx as usize) * (k + (w.sz as usize) * j));
    }
    None
}

// A known cell of a permission byte, of a shape's first box and count, and of a state.
fn of_parts(p: u8, first: u32, count: u32, state: u32) -> Cell
    ensures { result ≡ of_parts p first count state }
{
    Cell {
        occupied: p % 2 == 1,
        support: p / 2 % 2 == 1,
        first,
        count: ((p / 4 % 2) as u32) * count,
        through: p / 4 % 2 == 0,
        state,
    }
}

// What the tables say of a cell: its record names a state and a shape, and each of these has a record of its own. An unknown cell lacks one of them.
pub fn cell_at(world: World, x: i64, y: i64, z: i64) -> Option<Cell>
    ensures { result ≡ cell_at world.entry.window world.entry.cells.now world.entry.perms.now world.entry.shapes.now x y z }
{
    let (state, shape) = entry_of(world.window, world.cells, x, y, z)?;
    let permission = world.perms.get(state as usize)?;
    let (first, count) = world::entry_at(world.shapes, shape as usize)?;
    Some(of_parts(*permission, first, count, state))
}
