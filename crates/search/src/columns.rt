// The columns of one expansion (01, The graph, "Graph step"; "Pop, close, try the connector .., then the columns").
ghost use Rattle.std.specs.Prelude.{◌≡◌, ◌+◌, ◌≤◌, ◌<◌, length};
ghost use Rattle.world.specs.Space.{space_of};
ghost use Rattle.steps.specs.Columns.{column_if, steps_from};
ghost use Rattle.steps.specs.Expansion.{sides_before};
ghost use Rattle.visits.specs.Visits.{Ready};
ghost use Rattle.index.specs.Indexed.{Indexed};
ghost use Rattle.search.specs.Steps.{Stepped, Looked};

use crate::{Around, Entered, Task};
use heights::{Batch, Shaft};
use rooms::Counts;
use sides::Sides;
use strides::Column;
use visits::Place;
use world::Point;

// Column n, where it is looked at: its heights upwards, by batches of its tops in a room for them. What that room held decides nothing: the first batch
// counts as used up.
fn column(
    task: Task,
    nodes: &mut [u8],
    front: &mut [u8],
    entered: Entered,
    room: &mut [f64],
    at: Place,
    n: usize,
    c: Around,
) -> Around
    requires room_nonzero { 0 < length room.old }
    requires ready { Ready nodes.old front.old task.aim.budget (length (column_if (space_of task.query.world) task.query.request task.query.body at.point n) + 1) c.counts × (at.number < c.counts.retained) }
    requires indexed { Indexed entered.index.now nodes.old entered.known × (entered.known ≤ c.counts.retained) }
    requires sides_value { c.sides ≡ sides_before (space_of task.query.world) task.query.request task.query.body at.point n }
    ensures { Looked task.entry.aim at (space_of task.entry.query.world) task.entry.query.request task.entry.query.body n c result nodes.old front.old nodes.new front.new }
{
    if !c.sides.looked(n) {
        return c;
    }
    let centre = steps::column_centre(at.point, n);
    let band = steps::band_of(task.query.request, task.query.body, at.point);
    let shaft = Shaft {
        band,
        x: centre.x,
        z: centre.z,
    };
    let mut gone = Column {
        counts: c.counts,
        level: false,
    };
    let mut after = None;
    let mut batch = Batch {
        count: room.len(),
        at: room.len(),
    };
    loop {
        batch = heights::advance(task.query.world, shaft, after, room, batch);
        let Some(y) = heights::height_at(room, batch) else {
            let sides = c.sides.answered(n, gone.level);
            return Around {
                counts: gone.counts,
                sides,
            };
        };
        let to = Point {
            x: centre.x,
            y,
            z: centre.z,
        };
        let j = index::find(
            entered.index,
            nodes,
            entered.known,
            gone.counts.retained,
            words::feet_of(to),
        );
        // A step to a closed point changes nothing: its edge is asked for only at a side, which still answers (01).
        if sides::is_side(n) | !visits::is_shut(nodes, gone.counts.retained, j) {
            let edge = edges::edge(task.query, at.point, to);
            gone = strides::step_to(nodes, front, task.aim, at, edge, j, gone);
        }
        after = Some(y);
    }
}

// The columns around a point, in order.
pub(crate) fn columns(
    task: Task,
    nodes: &mut [u8],
    front: &mut [u8],
    entered: Entered,
    room: &mut [f64],
    at: Place,
    c: Counts,
) -> Counts
    requires room_nonzero { 0 < length room.old }
    requires ready { Ready nodes.old front.old task.aim.budget (length (steps_from (space_of task.query.world) task.query.request task.query.body at.point) + 1) c × (at.number < c.retained) }
    requires indexed { Indexed entered.index.now nodes.old entered.known × (entered.known ≤ c.retained) }
    ensures { Stepped task.entry.aim at (steps_from (space_of task.entry.query.world) task.entry.query.request task.entry.query.body at.point) c result nodes.old front.old nodes.new front.new }
{
    let sides = Sides::none();
    let mut gone = Around { counts: c, sides };
    for n in 0..9 {
        gone = column(task, nodes, front, entered, room, at, n, gone);
    }
    gone.counts
}
