// The digest of a case's answers (oracle/README.md, `store`).
use digest::Digest;
use moves::{Reason, Waypoint};
use outcomes::Answer;
use world::NO_DOOR;

// One more number.
pub(crate) fn with(d: u64, x: u64) -> u64 {
    Digest { value: d }.with(x).value
}

pub(crate) fn with_yes(d: u64, yes: bool) -> u64 {
    with(d, yes as u64)
}

pub(crate) fn with_float(d: u64, x: f64) -> u64 {
    Digest { value: d }.with_float(x).value
}

// Every byte of a room, 8 to a number.
pub(crate) fn with_words(d: u64, room: &[u8]) -> u64 {
    room.chunks_exact(8)
        .fold(d, |sum, word| with(sum, fields::u64_at(word, 0)))
}

// The height's bits; 4 where there is none.
pub(crate) fn with_height(d: u64, h: Option<f64>) -> u64 {
    match h {
        Some(y) => with_float(d, y),
        None => with(d, 4),
    }
}

// Whether an area is clear, and its door.
pub(crate) fn with_corridor(d: u64, a: Option<u32>) -> u64 {
    let door = a.unwrap_or(NO_DOOR);
    with(with_yes(d, a.is_some()), door as u64)
}

// A waypoint's feet, lift and door.
fn with_waypoint(d: u64, w: Waypoint) -> u64 {
    let e = with_float(with_float(d, w.feet.x), w.feet.y);
    with(with_float(with_float(e, w.feet.z), w.lift), w.door)
}

// The movement's number, then feet, lift and door; 4 where there is no edge.
pub(crate) fn with_edge(d: u64, a: Option<Waypoint>) -> u64 {
    match a {
        Some(w) => with_waypoint(with(d, u64::from(w.movement)), w),
        None => with(d, 4),
    }
}

// The edge check's number, as the C interface tells it, then of an edge feet, lift and door.
pub(crate) fn with_check(d: u64, a: Result<Waypoint, Reason>) -> u64 {
    let e = with(d, c_answers::edge_number(a));
    match a {
        Ok(w) => with_waypoint(e, w),
        Err(_) => e,
    }
}

// The outcome and the three counts, then every byte of the four rooms.
pub(crate) fn with_search(
    d: u64,
    a: Answer,
    nodes: &[u8; 32896],
    front: &[u8; 32896],
    index: &[u8; 8208],
    out: &[u8; 32896],
) -> u64 {
    let e = with(with(d, u64::from(a.outcome)), a.count as u64);
    let f = with(with(e, a.retained as u64), a.closed);
    with_words(
        with_words(with_words(with_words(f, nodes), front), index),
        out,
    )
}
