// One expansion, and so many of them (01, "Search": "Pop, close, try the connector (a start equal to the goal needs none: its list is the start alone), then the columns").
ghost use Rattle.std.specs.Prelude.{◌≡◌, ◌+◌, ◌*◌, ◌≤◌, ◌<◌, length};
ghost use Rattle.world.specs.Space.{space_of};
ghost use Rattle.words.specs.Words.{feet_of};
ghost use Rattle.visits.specs.Visits.{Ready};
ghost use Rattle.index.specs.Indexed.{Indexed};
ghost use Rattle.search.specs.Turns.{most_steps, Bounded, Settled, Turned};
ghost use Rattle.search.specs.Runs.{Spun};

use crate::columns::columns;
use crate::{Entered, Task};
use outcomes::Turn;
use rooms::Counts;
use visits::Place;

// How many tops one pass over a column finds. A column of a good world has at most some two thousand (131 layers of 16 boxes), most have one or two.
const TOPS: usize = 256;

// One expansion, of whatever state the rooms are. The nodes that are not entered are found by a scan: with none entered, all. The nodes before `low` are at
// rest, so the next one is picked from `low` on: with 0, from all.
pub(crate) fn expand(
    task: Task,
    nodes: &mut [u8],
    front: &mut [u8],
    entered: Entered,
    low: usize,
    room: &mut [f64],
    c: Counts,
) -> Turn
    requires room_nonzero { 0 < length room.old }
    requires ready { Ready nodes.old front.old task.aim.budget (most_steps + 2) c }
    requires goal_value { (task.aim.goal ≡ feet_of task.query.request.goal) × Bounded (space_of task.query.world) task.query.request task.query.body }
    requires indexed { Indexed entered.index.now nodes.old entered.known × (entered.known ≤ c.retained) × Settled nodes.old front.old low }
    ensures { Turned task.entry.aim (space_of task.entry.query.world) task.entry.query.request task.entry.query.body c result nodes.old front.old nodes.new front.new }
{
    let k = scans::pick(front, low, c.retained);
    if c.retained <= k {
        return Turn::Rest(c);
    }
    let closing = visits::close(nodes, front, task.aim, k, c);
    let node = closing.node;
    let shut = closing.counts;
    if equal_points::same_point(node.feet, task.aim.goal) {
        return Turn::At(shut, k);
    }
    let point = words::point_of(node.feet);
    if let Some(way) = edges::connector(task.query, point) {
        let label = words::label_of(way);
        return Turn::By(shut, k, label);
    }
    let at = Place {
        number: k,
        node,
        point,
    };
    Turn::Going(columns(task, nodes, front, entered, room, at, shut))
}

// So many expansions of the search that the rooms (slices side by side, as a call lends them) and the counts hold, or fewer where it ends. No node is
// entered in the index yet; into one without slots none is, and every lookup scans.
pub(crate) fn spin(
    task: Task,
    nodes: &mut [u8],
    front: &mut [u8],
    index: &mut [u8],
    c: Counts,
    n: usize,
) -> Turn
    requires ready { Ready nodes.old front.old task.aim.budget ((most_steps + 1) * n + 1) c }
    requires goal_value { (task.aim.goal ≡ feet_of task.query.request.goal) × Bounded (space_of task.query.world) task.query.request task.query.body }
    requires indexed { Indexed index.old nodes.old 0 }
    ensures { Spun task.entry.aim (space_of task.entry.query.world) task.entry.query.request task.entry.query.body c n result nodes.old front.old nodes.new front.new }
{
    let mut known: usize = 0;
    let mut low: usize = 0; // the nodes before it are at rest
    let mut room = [0.0; TOPS];
    let mut turn = Turn::Going(c);
    for _ in 0..n {
        let Turn::Going(d) = turn else {
            break;
        };
        known = index::extend(index, nodes, known, d.retained);
        low = scans::first_busy(nodes, front, low, d.retained);
        let entered = Entered {
            index: &*index,
            known,
        };
        turn = expand(task, nodes, front, entered, low, &mut room, d);
    }
    turn
}
