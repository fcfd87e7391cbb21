// The columns around a point (01: "the nine column offsets in this order"), and the band of heights in which a step from the point ends.
ghost use Rattle.std.specs.Prelude.{◌≡◌};
ghost use Rattle.steps.specs.Columns.{offset_at, centre, centre_of, band_of};

use heights::Band;
use world::{Body, Point, Request};

// A column's offset from the point's own, in x and z.
#[derive(Clone, Copy)]
pub struct Offset(pub i32, pub i32);

pub const NEIGHBOURS: [Offset; 9] = [
    Offset(0, 0),
    Offset(1, 0),
    Offset(0, 1),
    Offset(-1, 0),
    Offset(0, -1),
    Offset(1, 1),
    Offset(-1, 1),
    Offset(-1, -1),
    Offset(1, -1),
];

// The centre of a column, in x and z. (No `Shaft`: a point has one band, and each column its centre.)
#[derive(Clone, Copy)]
pub struct Centre {
    pub x: f64,
    pub z: f64,
}

// The offset of column n; past the last that of the point's own column.
#[tactic(auto, unfolding(crate::specs::Columns::offset_at))]
fn offset_at(n: usize) -> Offset
    ensures { result ≡ offset_at n }
{
    NEIGHBOURS.get(n).copied().unwrap_or(Offset(0, 0))
}

// The centre of a column along one axis.
fn centre_along(x: f64, d: i32) -> f64
    ensures { result ≡ centre x d }
{
    let column = cells::floor_cell(x) + i64::from(d);
    cells::float_cell(column) + 0.5
}

// The centre of column n around a point.
pub fn column_centre(from: Point, n: usize) -> Centre
    ensures { result ≡ centre_of from n }
{
    let offset = offset_at(n);
    Centre {
        x: centre_along(from.x, offset.0),
        z: centre_along(from.z, offset.1),
    }
}

// The band of heights around a point.
#[tactic(auto, unfolding(crate::specs::Columns::band_of))]
pub fn band_of(r: Request, body: Body, from: Point) -> Band
    ensures { result ≡ band_of r body from }
{
    let step = moves::step_height(r, body);
    Band {
        low: floats::max(from.y - r.max_drop, r.start.y - r.max_range),
        high: floats::min(
            from.y + floats::max(step, r.jump_height),
            r.start.y + r.max_range,
        ),
    }
}
