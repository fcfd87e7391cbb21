// What a record of kind 6 writes into the cell table (01, "Scenes and walkprint"): a fill is clipped to the window, and its cells are written in the table's
// order. Every input is answered for: what does not fit the table is not written.
#![tactic(auto)]

ghost use Rattle.std.specs.Prelude.{◌≡◌, ◌<◌};
ghost use mathlib.Core.List.{foldl};
ghost use Rattle.regions.specs.Regions.{cells_of};
ghost use Rattle.scene_fills.specs.Fills.{axis_of, record_at, with_cell, filled};
ghost use Rattle.scene_fills.specs.Laws.{Few, Clipped};

use regions::{Range, Region, Spot};
use world::Window;

// The cells along an axis from the min to the max that a record of kind 6 has for it, clipped; the max stands 12 bytes behind the min.
fn axis(bytes: &[u8], at: usize, origin: i32, size: u32) -> Range
    requires { at < 64 }
    ensures { result ≡ axis_of bytes.now at origin size }
{
    let low = origin as i64;
    let end = size as i64;
    let from = (fields::i32_at(bytes, at) as i64) - low;
    let to = (fields::i32_at(bytes, at + 12) as i64) - low;
    let first = from.max(0);
    let last = to.min(end - 1);
    Range { first, last }
}

// A cell's record, of the window's sizes in x and z.
fn number(sx: u32, sz: u32, at: Spot) -> u32
    requires { (sx < 257) × (sz < 257) × Few at }
    ensures { result ≡ record_at sx sz at }
{
    (at.x as u32) + sx * ((at.z as u32) + sz * (at.y as u32))
}

// The cells of a region of the window, set to a state and a shape.
fn fill_region(w: Window, region: Region, state: u32, shape: u32, cells: &mut [u8])
    requires { Clipped w region }
    ensures { cells.new ≡ foldl (with_cell w.sx w.sz state shape) cells.old (cells_of region) }
{
    // not `for at in region.cells()`: that looks one cell ahead, which makes a fill slower (docs/DESIGN-PASS.md)
    let mut next = regions::first_in(region);
    while let Some(at) = next {
        scene_tables::put_entry(cells, number(w.sx, w.sz, at), state, shape);
        next = regions::next_in(region, at);
    }
}

// The cells of a window after a record of kind 6.
pub fn fill_cells(w: Window, bytes: &[u8], cells: &mut [u8])
    ensures { cells.new ≡ filled w bytes.now cells.old }
{
    if world::size_above(w) {
        return;
    }
    let ys = axis(bytes, 12, w.y, w.sy);
    let zs = axis(bytes, 16, w.z, w.sz);
    let xs = axis(bytes, 8, w.x, w.sx);
    let region = Region { ys, zs, xs };
    let state = fields::u32_at(bytes, 32);
    let shape = fields::u32_at(bytes, 36);
    fill_region(w, region, state, shape, cells);
}
