// What reading a scene and the functions asked about it answer.
use crate::{sheet, sum, trial, two_points};
use scene_state::{Scene, SceneError};
use world::{Query, World};

// What reading answers, as the C interface writes it, and every byte of the tables.
fn read(
    answer: Result<Scene, SceneError>,
    cells: &[u8],
    perms: &[u8],
    shapes: &[u8],
    boxes: &[u8],
) -> u64 {
    let mut made = [0u8; 168];
    let number = c_scene::put_answer(answer, &mut made);
    let d = sum::with_words(sum::with_words(number, &made), cells);
    sum::with_words(sum::with_words(sum::with_words(d, perms), shapes), boxes)
}

// The walk-back of the sheet's list, as the C interface answers it: its number, and the place that goes with a pair's reason, or 0. Then the list's length.
fn walked(query: Query, asked: &[u8], d: u64) -> u64 {
    let list = sheet::front(asked, sheet::number(asked, sheet::LIST));
    let a = walk_back::walk_back(query, list);
    let mut place = [0u8; 8];
    let number = c_answers::put_walked(a, &mut place);
    let walked = sum::with_words(sum::with(d, number), &place);
    sum::with_float(walked, lengths::length_of(list))
}

// All answers. A whole scene is asked about over the part of each table that it made.
pub(crate) fn answered(
    answer: Result<Scene, SceneError>,
    cells: &[u8],
    perms: &[u8],
    shapes: &[u8],
    boxes: &[u8],
    asked: &[u8],
) -> u64 {
    let d = read(answer, cells, perms, shapes, boxes);
    let Ok(s) = answer else {
        return d;
    };
    let used = s.in_use;
    let world = World {
        window: s.window,
        cells: sheet::front(cells, used.cells),
        perms: sheet::front(perms, used.perms),
        shapes: sheet::front(shapes, used.shapes),
        boxes: sheet::front(boxes, used.boxes),
    };
    let query = Query {
        world,
        request: s.request,
        body: s.body,
    };
    match sheet::number(asked, sheet::KIND) {
        0 => two_points::answered(query, asked, d),
        1 => walked(query, asked, d),
        _ => trial::searched(query, asked, d),
    }
}
