// One record of a room read (01, "Tables", with the sizes of 02, No. 5): a waypoint of 48 bytes, a node of 64, a frontier record of 24.
ghost use Rattle.std.specs.Prelude.{◌≡◌, ◌*◌, ◌≤◌, ◌<◌, length};
ghost use Rattle.fields.specs.Records.{record_at};
ghost use Rattle.rooms.specs.Records.{feet_from, waypoint_from, waypoint_layout, waypoint_at, node_at, entry_at};
ghost use Rattle.rooms.specs.Offsets.{Offset};

use crate::{Entry, Feet, Label, NodeRecord, WaypointRecord};

// Where record k of a room is read, at so many bytes a record. One past the end is read at the end, where every field is 0 too, so no reader branches.
fn offset_of(room: &[u8], size: usize, k: usize) -> usize
    ensures { Offset room.now (size * k) result }
{
    size.saturating_mul(k).min(room.len())
}

// The feet of the waypoint record at an offset.
#[tactic(auto, using(crate::proofs::Laws::Fields::feet_read))]
fn feet_at(room: &[u8], at: usize) -> Feet
    requires { at ≤ length room.now }
    ensures { result ≡ feet_from (record_at waypoint_layout room.now at) }
{
    let x = fields::u64_at(room, at);
    let y = fields::u64_at(room, at + 8);
    let z = fields::u64_at(room, at + 16);
    Feet { x, y, z }
}

// The whole record there.
#[tactic(auto, using(crate::proofs::Laws::Fields::waypoint_read))]
fn waypoint_at(room: &[u8], at: usize) -> WaypointRecord
    requires { at ≤ length room.now }
    ensures { result ≡ waypoint_from (record_at waypoint_layout room.now at) }
{
    let feet = feet_at(room, at);
    let lift = fields::u64_at(room, at + 24);
    let movement = fields::u64_at(room, at + 32);
    let door = fields::u64_at(room, at + 40);
    let label = Label {
        lift,
        movement,
        door,
    };
    WaypointRecord { feet, label }
}

// Waypoint k of a list. Each record has its own fields, so there is a reader for each; what they share is `offset_of`, `feet_at` and `waypoint_at`.
pub fn get_waypoint(list: &[u8], k: usize) -> WaypointRecord
    ensures { result ≡ waypoint_at list.now k }
{
    waypoint_at(list, offset_of(list, 48, k))
}

// Node k.
pub fn get_node(nodes: &[u8], k: usize) -> NodeRecord
    ensures { result ≡ node_at nodes.now k }
{
    let at = offset_of(nodes, 64, k);
    let WaypointRecord { feet, label } = waypoint_at(nodes, at);
    let cost = fields::u64_at(nodes, at + 48);
    let parent = fields::u32_at(nodes, at + 56);
    let closed = fields::u32_at(nodes, at + 60);
    NodeRecord {
        feet,
        label,
        cost,
        parent,
        closed,
    }
}

// Where node k is, without the rest of its record: a lookup reads no more.
pub fn get_feet(nodes: &[u8], k: usize) -> Feet
    ensures { result ≡ (node_at nodes.now k).feet }
{
    feet_at(nodes, offset_of(nodes, 64, k))
}

// The frontier record of node k.
pub fn get_entry(front: &[u8], k: usize) -> Entry
    ensures { result ≡ entry_at front.now k }
{
    let at = offset_of(front, 24, k);
    let estimate = fields::u64_at(front, at);
    let order = fields::u64_at(front, at + 8);
    let waiting = fields::u64_at(front, at + 16);
    Entry {
        estimate,
        order,
        waiting,
    }
}
