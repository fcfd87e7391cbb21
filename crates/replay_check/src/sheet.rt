// The sheet that says what is asked of a scene: a list of waypoints from byte 0 on, then numbers at the places below.

// What is asked: 0 two points, 1 the list, 2 a search.
pub(crate) const KIND: usize = 256;

// How many bytes the scene has, the list, and the part of the cell table that the search is lent.
pub(crate) const SCENE: usize = 260;

pub(crate) const LIST: usize = 264;

pub(crate) const CELLS: usize = 268;

// The bytes of the search's rooms, and the byte that they and the tables are full of before a call.
pub(crate) const NODES: usize = 272;

pub(crate) const FRONT: usize = 276;

pub(crate) const INDEX: usize = 280;

pub(crate) const OUT: usize = 284;

pub(crate) const FILL: usize = 288;

// The column around the first point, the answers of its four sides, and the height after which the next one is asked for.
pub(crate) const COLUMN: usize = 292;

pub(crate) const SIDES: usize = 296;

pub(crate) const AFTER: usize = 300;

// Two points.
pub(crate) const FROM: usize = 308;

pub(crate) const TO: usize = 332;

// The number at a place.
pub(crate) fn number(sheet: &[u8], at: usize) -> usize {
    fields::u32_at(sheet, at) as usize
}

// The first n bytes, or all.
pub(crate) fn front(s: &[u8], n: usize) -> &[u8] {
    s.get(..n).unwrap_or(s)
}

// The next change: a place, a length, and so many bytes, which are read over those at the place.
pub(crate) fn change(rt: &impl Input, held: &mut [u8]) {
    let at = input::number(rt, 2) as usize;
    let end = at + input::number(rt, 2) as usize;
    if end <= held.len() {
        input::take(rt, end - at, &mut held[at..end]);
    }
}
