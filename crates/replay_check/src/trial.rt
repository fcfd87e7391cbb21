// A search in rooms of the sheet's sizes, full of the sheet's byte, and then its nodes in the index. Before it one slot of the index looks free: where none
// does, a search that reads old slots enters no node, scans them all, and answers as it must.
use crate::{lookups, sheet, sum};
use world::{Query, World};

pub(crate) fn searched(query: Query, asked: &[u8], d: u64) -> u64 {
    let fill = scene_records::byte_at(asked, sheet::FILL);
    let mut nodes = [fill; 32896];
    let mut front = [fill; 32896];
    let mut index = [fill; 8208];
    let mut out = [fill; 32896];
    stores::put_u32(&mut index, 0, 0);
    let n = sheet::number(asked, sheet::NODES) % 32897;
    let f = sheet::number(asked, sheet::FRONT) % 32897;
    let x = sheet::number(asked, sheet::INDEX) % 8209;
    let o = sheet::number(asked, sheet::OUT) % 32897;
    let world = World {
        cells: sheet::front(query.world.cells, sheet::number(asked, sheet::CELLS)),
        ..query.world
    };
    let a = search::find_walk_path(
        Query { world, ..query },
        &mut nodes[..n],
        &mut front[..f],
        &mut index[..x],
        &mut out[..o],
    );
    let e = sum::with_search(d, a, &nodes, &front, &index, &out);
    let m = lookups::entered(&mut index, x, &nodes, a.retained);
    let goal = words::feet_of(query.request.goal);
    lookups::with_found(e, &index, x, &nodes, m, a.retained, goal)
}
