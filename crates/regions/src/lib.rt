// The cells that a body's spans reach (01, The graph): along an axis from the first one to the last one, and on three axes one after the other.
//
// 01 names such cells from floor(min) to ceil(max) - 1, or to the floor of the span's high end, and in y some layers below the span's low end. One loop goes
// through the cells of a region: `for at in region.cells()`.
#![tactic(auto)]

ghost use Rattle.std.specs.Prelude.{◌≡◌, pos, ◌-ℤ◌, List};
ghost use Rattle.std.specs.Iterator.{YieldsFirst, item_count};
ghost use Rattle.cells.specs.Cells.{floor_cell, ceil_cell};
ghost use Rattle.regions.specs.Ranges.{range};
ghost use Rattle.regions.specs.declared.Spot.{Spot};
ghost use Rattle.regions.specs.Regions.{cells_of, first_in, next_in, to_come, Proper};

use std::marker::Model;

// The cells along an axis: none where the last one is below the first.
#[derive(Clone, Copy)]
pub struct Range {
    pub first: i64,
    pub last: i64,
}

// From so many cells below floor(least) to ceil(greatest) - 1.
pub fn reached(least: f64, greatest: f64, below: u8) -> Range
    ensures { result ≡ range (floor_cell least -ℤ pos below) (ceil_cell greatest -ℤ pos 1) }
{
    let first = cells::floor_cell(least) - (below as i64);
    let last = cells::ceil_cell(greatest) - 1;
    Range { first, last }
}

// From so many cells below floor(low) to floor(high). (01 names the two kinds of ends apart, so there are two functions.)
pub fn floors(low: f64, high: f64, below: u8) -> Range
    ensures { result ≡ range (floor_cell low -ℤ pos below) (floor_cell high) }
{
    let first = cells::floor_cell(low) - (below as i64);
    let last = cells::floor_cell(high);
    Range { first, last }
}

// A range on each axis. Its cells come layer by layer along y, in a layer row by row along z, in a row cell by cell along x, as the cell table has them.
#[derive(Clone, Copy)]
pub struct Region {
    pub ys: Range,
    pub zs: Range,
    pub xs: Range,
}

// The numbers of a cell.
#[derive(Clone, Copy)]
pub struct Spot {
    pub x: i64,
    pub y: i64,
    pub z: i64,
}

// The first cell of a region, if there is one.
pub fn first_in(r: Region) -> Option<Spot>
    ensures { result ≡ first_in r }
{
    let more = (r.ys.first <= r.ys.last) & (r.zs.first <= r.zs.last) & (r.xs.first <= r.xs.last);
    if more {
        Some(Spot {
            x: r.xs.first,
            y: r.ys.first,
            z: r.zs.first,
        })
    } else {
        None
    }
}

// The cell after one, if there is one: a row goes along x, the rows of a layer along z, the layers along y.
#[inline(always)]
pub fn next_in(r: Region, at: Spot) -> Option<Spot>
    ensures { result ≡ next_in r at }
{
    let Spot { x, y, z } = at;
    let Region { ys, zs, xs } = r;
    if x < xs.last {
        Some(Spot { x: x + 1, y, z })
    } else if z < zs.last {
        Some(Spot {
            x: xs.first,
            y,
            z: z + 1,
        })
    } else if y < ys.last {
        Some(Spot {
            x: xs.first,
            y: y + 1,
            z: zs.first,
        })
    } else {
        None
    }
}

impl Region {
    // The cells of the region, for a loop: `for at in region.cells()`.
    pub fn cells(self) -> Cells
        ensures { result ≡ cells_of self }
    {
        let next = first_in(self);
        Cells { region: self, next }
    }
}

// An iterator of the cells of a region: contracts see it as the list of the cells that are left.
#[derive(Drop)]
pub struct Cells {
    region: Region,
    next: Option<Spot>,
}

impl Model for Cells {
    ghost Value = { List Spot };

    ghost view = { λ c. to_come c.region c.next };

    ghost invariant = { λ c. Proper c.region c.next };
}

impl Iterator for Cells {
    type Item = Spot;

    ghost next_gives = { YieldsFirst (λ rest. rest) };

    ghost remaining = { item_count (λ rest. rest) };

    // Put into each loop: a call for each cell would cost more than most cells do.
    #[inline(always)]
    fn next(&mut self) -> Option<Spot> {
        let at = self.next?;
        self.next = next_in(self.region, at);
        Some(at)
    }
}
