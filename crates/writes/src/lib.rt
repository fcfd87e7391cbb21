// One record of a room written (01, "Tables", with the sizes of 02, No. 5): a waypoint of 48 bytes, a node of 64, a frontier record of 24; or a whole room set to
// zero. A record that the room has no place for is not written.
#![tactic(auto)]

ghost use Rattle.std.specs.Prelude.{◌≡◌, length, replicate};
ghost use Rattle.rooms.specs.Records.{with_waypoint};
ghost use Rattle.rooms.specs.Writes.{PutNode, PutEntry};

use rooms::{Entry, Feet, Label, NodeRecord};

// Waypoint k of a list written. Its words stand in the order of the record (`with_waypoint`), as those of the records below do.
pub fn put_waypoint(out: &mut [u8], k: usize, feet: Feet, label: Label)
    ensures { out.new ≡ with_waypoint out.old k feet label }
{
    let words = [
        feet.x,
        feet.y,
        feet.z,
        label.lift,
        label.movement,
        label.door,
    ];
    records::put_record(out, k, &words);
}

// Node k written. The last word has two u32, parent and closed.
pub fn put_node(nodes: &mut [u8], k: usize, r: NodeRecord)
    ensures { PutNode nodes.old k r nodes.new }
{
    let words = [
        r.feet.x,
        r.feet.y,
        r.feet.z,
        r.label.lift,
        r.label.movement,
        r.label.door,
        r.cost,
        u64::from(r.parent) + 4294967296 * u64::from(r.closed),
    ];
    records::put_record(nodes, k, &words);
}

// The frontier record of node k written.
pub fn put_entry(front: &mut [u8], k: usize, e: Entry)
    ensures { PutEntry front.old k e front.new }
{
    records::put_record(front, k, &[e.estimate, e.order, e.waiting]);
}

// A room all zero.
pub fn zero(room: &mut [u8])
    ensures { room.new ≡ replicate (length room.old) 0 }
{
    room.fill(0);
}
