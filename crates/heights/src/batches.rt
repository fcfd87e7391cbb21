// A column gone through by batches of its lowest tops (01, The graph, "Graph step"): as many heights as a room has places for in one pass over the column.
ghost use Rattle.std.specs.Prelude.{◌≡◌, ◌≤◌, ◌-◌, length};
ghost use Rattle.world.specs.Space.{space_of};
ghost use Rattle.heights.specs.Heights.{tops};
ghost use Rattle.heights.specs.Lowest.{first_from, moved_on, height_at};

use crate::lowest::lowest_tops;
use crate::{Shaft, is_beyond};
use world::World;

// So many tops at the front of a room, and the place of the one that is next. A batch that is as long as its room may have left tops out.
// The room is the caller's, lent anew at each call, and so no part of it.
#[derive(Clone, Copy)]
pub struct Batch {
    pub count: usize,
    pub at: usize,
}

// The first place from one on, of so many, whose top is not within E of the last kept.
fn first_beyond(room: &[f64], from: usize, count: usize, after: Option<f64>) -> usize
    requires { count ≤ length room.now }
    ensures { result ≡ first_from after room.now from (count - from) }
{
    for at in from..count {
        let beyond = is_beyond(after, room[at]);
        if beyond {
            return at;
        }
    }
    from.max(count)
}

// The batch moved on to the next height after the last kept one; where it is used up and was full, the room is filled again from the column.
pub fn advance(world: World, shaft: Shaft, after: Option<f64>, room: &mut [f64], b: Batch) -> Batch
    ensures { (room.new, result) ≡ moved_on (tops (space_of world.entry) shaft.band shaft.x shaft.z) after room.old b }
{
    let short = b.count < room.len();
    let count = b.count.min(room.len());
    let at = first_beyond(room, b.at, count, after);
    if (at < count) | short {
        return Batch { count, at };
    }
    let count = lowest_tops(world, shaft, after, room);
    Batch { count, at: 0 }
}

// The height that a batch is at.
#[tactic(auto, unfolding(crate::specs::Lowest::height_at))]
pub fn height_at(room: &[f64], b: Batch) -> Option<f64>
    ensures { result ≡ height_at room.now b }
{
    if b.count <= b.at {
        return None;
    }
    room.get(b.at).copied()
}
