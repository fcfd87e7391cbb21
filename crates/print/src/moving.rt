// Moves the bytes (01, "Scenes and walkprint"): a scene from standard input, record by record, and its lines to standard output.
use crate::telling;
use print_lines::Told;
use scene_state::{Scene, SceneError};

fn write_line(rt: &impl Print, told: Told, list: &[u8], k: usize) {
    let mut buffer = [0u8; 128];
    let n = print_lines::line(told, list, k, &mut buffer);
    let _ = rt.write_all(&buffer[..n]);
}

// The first line, and one for each waypoint.
fn write_lines(rt: &impl Print, told: Told, list: &[u8]) {
    for k in 0..=told.waypoints {
        write_line(rt, told, list, k);
    }
}

// Searches the scene that was read, or not, and prints what there is to tell. The rooms are those of a budget of 512.
fn print_told(
    rt: &impl Print,
    answer: Result<Scene, SceneError>,
    cells: &[u8],
    perms: &[u8],
    shapes: &[u8],
    boxes: &[u8],
) {
    let mut nodes = [0u8; 32768];
    let mut front = [0u8; 12288];
    let mut index = [0u8; 4096];
    let mut out = [0u8; 24624];
    let told = telling::tell(
        answer, cells, perms, shapes, boxes, &mut nodes, &mut front, &mut index, &mut out,
    );
    write_lines(rt, told, &out);
}

// Reads a scene of at most so many bytes and prints it: it ends there, or where the input ends. The tables are those of the largest scene: 4,096 cells, 256
// states, shapes and boxes.
pub fn print_scene<R: Input + Print>(rt: &R, bytes: usize) {
    let mut cells = [0u8; 32768];
    let mut perms = [0u8; 256];
    let mut shapes = [0u8; 2048];
    let mut boxes = [0u8; 12288];
    let mut record = [0u8; 64];
    let mut progress = scene::begin(&cells, &perms, &shapes, &boxes);
    let mut left = bytes;
    // until the input ends: how many records come is not known before
    loop {
        let count = input::take(rt, left, &mut record);
        if count == 0 {
            break;
        }
        progress = scene::take_record(
            progress,
            &record[..count],
            &mut cells,
            &mut perms,
            &mut shapes,
            &mut boxes,
        );
        left -= count;
    }
    print_told(rt, scene::end(progress), &cells, &perms, &shapes, &boxes);
}
