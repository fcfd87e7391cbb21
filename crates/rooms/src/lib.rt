// The rooms of the search (01, "Tables, little-endian records"; 02, No. 5): node records, frontier records, and the list that is written of them.
//
// The types stand here, as the raw words of the records, so that whatever bytes a room holds are read and written back as they were. `records` reads one
// record; the crates `writes`, `scans` and `lists` write one, look through a room, and write the found list. Every public function answers for every room:
// a record past the room's end is read as zeros.
#![tactic(auto)]

mod records;

pub use records::{get_entry, get_feet, get_node, get_waypoint};

// The feet of a waypoint: the patterns of three f64.
#[derive(Clone, Copy)]
pub struct Feet {
    pub x: u64,
    pub y: u64,
    pub z: u64,
}

// What an edge says of the point that it leads to: the pattern of its lift, its movement's number, and its door (02, No. 5).
#[derive(Clone, Copy)]
pub struct Label {
    pub lift: u64,
    pub movement: u64,
    pub door: u64,
}

// A waypoint record, 48 bytes: a node record begins with one, and a list consists of them.
#[derive(Clone, Copy)]
pub struct WaypointRecord {
    pub feet: Feet,
    pub label: Label,
}

// A node record, 64 bytes: a waypoint, the pattern of its cost, its parent's number, whether it is closed.
#[derive(Clone, Copy)]
pub struct NodeRecord {
    pub feet: Feet,
    pub label: Label,
    pub cost: u64,
    pub parent: u32,
    pub closed: u32,
}

// A frontier record, 24 bytes, of the node with the same number: the pattern of its estimate, its push order, and 1 where it waits.
#[derive(Clone, Copy)]
pub struct Entry {
    pub estimate: u64,
    pub order: u64,
    pub waiting: u64,
}

// What a search counts: retained and closed nodes, pushes, and new points that were dropped.
#[derive(Clone, Copy)]
pub struct Counts {
    pub retained: usize,
    pub closed: u64,
    pub pushed: u64,
    pub dropped: u64,
}

// The parent of the start: none.
pub const NOBODY: u32 = 4294967295;

// The door of the start, and of an edge that meets none.
pub const NO_DOOR: u64 = 4294967295;
