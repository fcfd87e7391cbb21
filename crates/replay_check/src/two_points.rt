// What the proved functions say of two points and of a column around the first.
use crate::{sheet, sum};
use heights::Shaft;
use sides::Sides;
use world::{Aabb, Point, Query};

// Whether a byte of the sheet is a yes.
fn said(asked: &[u8], at: usize) -> bool {
    scene_records::byte_at(asked, at) == 1
}

// Whether the graph looks at column n, with the sheet's answers of the four sides; what column n itself answers last must change nothing.
fn is_looked_at(asked: &[u8], n: usize, level: bool) -> bool {
    let a = Sides::none();
    let b = a.answered(1, said(asked, sheet::SIDES));
    let c = b.answered(2, said(asked, sheet::SIDES + 1));
    let d = c.answered(3, said(asked, sheet::SIDES + 2));
    let e = d.answered(4, said(asked, sheet::SIDES + 3));
    e.answered(n, level).looked(n)
}

// Of a column around a point: its first height, and the next after the sheet's.
fn column(query: Query, asked: &[u8], from: Point, d: u64) -> u64 {
    let n = sheet::number(asked, sheet::COLUMN);
    let band = steps::band_of(query.request, query.body, from);
    let at = steps::column_centre(from, n);
    let shaft = Shaft {
        band,
        x: at.x,
        z: at.z,
    };
    let last = fields::f64_at(asked, sheet::AFTER);
    let first = heights::next_height(query.world, shaft, None);
    let next = heights::next_height(query.world, shaft, Some(last));
    sum::with_height(sum::with_height(d, first), next)
}

// Of the two points: whether the first is in range and standable, the box between them clear, and its door, the segment supported; the edge check, and the first's
// connector.
fn pair(query: Query, a: Point, b: Point, d: u64) -> u64 {
    let Query {
        world,
        request,
        body,
    } = query;
    let in_range = places::in_range(request, a);
    let standable = places::standable(world, body, a);
    let area = clear::corridor_of(world, Aabb { min: a, max: b });
    let supported = segments::supported_segment(world, body.width, a, b);
    let e = sum::with_yes(sum::with_yes(d, in_range), standable);
    let f = sum::with_yes(sum::with_corridor(e, area), supported);
    let to = edges::edge_check(query, a, b);
    let end = edges::connector(query, a);
    sum::with_edge(sum::with_check(f, to), end)
}

// All of it, and first whether the graph looks at the column.
pub(crate) fn answered(query: Query, asked: &[u8], d: u64) -> u64 {
    let a = world::point_at(asked, sheet::FROM);
    let b = world::point_at(asked, sheet::TO);
    let n = sheet::number(asked, sheet::COLUMN);
    let looked = is_looked_at(asked, n, sides::is_level(a, b));
    let e = pair(query, a, b, sum::with_yes(d, looked));
    column(query, asked, a, e)
}
