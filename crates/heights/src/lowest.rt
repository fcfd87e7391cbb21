// The lowest tops of a column, in one pass over its cells (01, The graph, "Graph step"): as many as a room has places for. A room for one gives the next
// height; with more, a column of many heights is not passed over once for each. A room and how many of its places are filled go side by side, since the room is a
// caller's slice, lent anew at each call.
ghost use Rattle.std.specs.Prelude.{◌≡◌, ◌≤◌, length};
ghost use mathlib.Core.List.{map, foldl};
ghost use Rattle.regions.specs.Ranges.{along};
ghost use Rattle.world.specs.declared.Aabb.{Aabb};
ghost use Rattle.world.specs.Boxes.{moved};
ghost use Rattle.world.specs.Run.{boxes_left};
ghost use Rattle.world.specs.Space.{space_of};
ghost use Rattle.heights.specs.Heights.{tops_of, tops_in, tops};
ghost use Rattle.heights.specs.Lowest.{lowest, laid_over};
ghost use Rattle.heights.specs.Put.{place_of, put, taken};
ghost use Rattle.heights.specs.Laws.{with_box};

use crate::{Shaft, is_beyond, reaches_to};
use regions::Range;
use world::{Aabb, Point, Run, World};

// The place of a top among the first so many of a room: behind all that are not above it. It is sought from behind, since tops come upwards for the most part.
// (`rposition` would give the one before that place, and None for the first: no plainer.)
fn place_of(room: &[f64], count: usize, top: f64) -> usize
    requires { count ≤ length room.now }
    ensures { result ≡ place_of top room.now count }
{
    let mut place = count;
    while place > 0 && top < room[place - 1] {
        place -= 1;
    }
    place
}

// A top put in its place, those above it moved up by one; of a room that was full the highest falls out. Answers how many there are then.
fn put_top(room: &mut [f64], count: usize, top: f64) -> usize
    requires { count ≤ length room.old }
    ensures result_after { (room.new, result) ≡ put (room.old, count) top }
    ensures upper_bound { result ≤ length room.new }
{
    let end = room.len().min(count + 1);
    let place = place_of(room, count, top);
    if end <= place {
        return end;
    }
    room.copy_within(place..end - 1, place + 1);
    room[place] = top;
    end
}

// What one box makes of the lowest so far.
fn take_box(room: &mut [f64], count: usize, shaft: Shaft, after: Option<f64>, b: Aabb) -> usize
    requires { count ≤ length room.old }
    ensures result_after { (room.new, result) ≡ with_box shaft.band shaft.x shaft.z (taken after) (room.old, count) b }
    ensures upper_bound { result ≤ length room.new }
{
    let top = b.max.y;
    if reaches_to(shaft, b) & is_beyond(after, top) {
        return put_top(room, count, top);
    }
    count
}

// The lowest after the boxes of a run, moved by a point.
fn run_lowest(
    run: Run,
    by: Point,
    shaft: Shaft,
    after: Option<f64>,
    room: &mut [f64],
    count: usize,
) -> usize
    requires { count ≤ length room.old }
    ensures result_after { (room.new, result) ≡ foldl (taken after) (room.old, count) (tops_of shaft.band shaft.x shaft.z (map (λ (b : Aabb). moved b by) (boxes_left run.entry))) }
    ensures upper_bound { result ≤ length room.new }
{
    let mut so_far = count;
    for b in run {
        so_far = take_box(room, so_far, shaft, after, boxes::offset(b, by));
    }
    so_far
}

// The lowest after a cell of the column. Of air, as most cells are, nothing is worked out.
fn cell_lowest(
    world: World,
    shaft: Shaft,
    cx: i64,
    y: i64,
    cz: i64,
    after: Option<f64>,
    room: &mut [f64],
    held: usize,
) -> usize
    requires { held ≤ length room.old }
    ensures result_after { (room.new, result) ≡ foldl (taken after) (room.old, held) (tops_in shaft.band shaft.x shaft.z (space_of world.entry cx y cz)) }
    ensures upper_bound { result ≤ length room.new }
{
    let Some(cell) = space::cell_at(world, cx, y, cz) else {
        return held;
    };
    if cell.support & (0 < cell.count) {
        let by = points::corner_of(cx, y, cz);
        let run = world::boxes_in(world.boxes, cell.first, cell.count);
        return run_lowest(run, by, shaft, after, room, held);
    }
    held
}

// The lowest of the cells of a column in some layers.
fn column_lowest(
    world: World,
    shaft: Shaft,
    cx: i64,
    layers: Range,
    cz: i64,
    after: Option<f64>,
    room: &mut [f64],
) -> usize
    ensures { (room.new, result) ≡ foldl (taken after) (room.old, 0) (along (λ y. tops_in shaft.band shaft.x shaft.z (space_of world.entry cx y cz)) layers.first layers.last) }
{
    let mut count: usize = 0;
    for y in layers.first..=layers.last {
        count = cell_lowest(world, shaft, cx, y, cz, after, room, count);
    }
    count
}

// The lowest tops of a column that are not within E of the last kept height: as many as the room has places for, upwards. Answers how many there are.
pub fn lowest_tops(world: World, shaft: Shaft, after: Option<f64>, room: &mut [f64]) -> usize
    ensures value { result ≡ length (lowest (length room.old) after (tops (space_of world.entry) shaft.band shaft.x shaft.z)) }
    ensures room_after { room.new ≡ laid_over (lowest (length room.old) after (tops (space_of world.entry) shaft.band shaft.x shaft.z)) room.old }
{
    let cx = cells::floor_cell(shaft.x);
    let cz = cells::floor_cell(shaft.z);
    let layers = regions::floors(shaft.band.low, shaft.band.high, 2);
    column_lowest(world, shaft, cx, layers, cz, after, room)
}
