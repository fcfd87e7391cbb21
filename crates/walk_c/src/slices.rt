// A search in slices (02, No. 10): begin, and some expansions more.
ghost use Rattle.std.specs.Prelude.{◌≡◌};
ghost use Rattle.walk_c.specs.Slices.{begun_in, continued_in, Sliced};

use crate::query::query_in;
use c_answers::put_tick;
use rooms::Counts;

// 1 to 5 without a search, nothing written; or 100, still searching, with the start retained. Of `out` only the length counts; `progress` gets the number, a
// count of 0, and the counts.
#[unsafe(no_mangle)]
pub extern "C" fn walkprint_begin(
    window: &[u8],
    cells: &[u8],
    permissions: &[u8],
    shapes: &[u8],
    boxes: &[u8],
    request: &[u8],
    body: &[u8],
    nodes: &mut [u8],
    front: &mut [u8],
    out: &[u8],
    progress: &mut [u8],
) -> u64
    ensures { Sliced (begun_in window.now cells.now permissions.now shapes.now boxes.now request.now body.now nodes.old front.old out.now) result progress.old progress.new nodes.new front.new out.now }
{
    let query = query_in(window, cells, permissions, shapes, boxes, request, body);
    let t = openings::begin_search(query, nodes, front, out);
    put_tick(t, progress)
}

// 3, 1, 4, 5 or 12, nothing written; or at most so many expansions of the search that the rooms and the counts hold: 100, still searching, or 0, 1 or 2 at its
// end. `progress` gets the number, the list's count, and the counts.
#[unsafe(no_mangle)]
pub extern "C" fn walkprint_continue(
    retained: u64,
    closed: u64,
    pushed: u64,
    dropped: u64,
    expansions: u64,
    window: &[u8],
    cells: &[u8],
    permissions: &[u8],
    shapes: &[u8],
    boxes: &[u8],
    request: &[u8],
    body: &[u8],
    nodes: &mut [u8],
    front: &mut [u8],
    out: &mut [u8],
    progress: &mut [u8],
) -> u64
    ensures { Sliced (continued_in window.now cells.now permissions.now shapes.now boxes.now request.now body.now nodes.old front.old out.old (record { retained = retained; closed = closed; pushed = pushed; dropped = dropped }) expansions) result progress.old progress.new nodes.new front.new out.new }
{
    let query = query_in(window, cells, permissions, shapes, boxes, request, body);
    let c = Counts {
        retained: retained as usize,
        closed,
        pushed,
        dropped,
    };
    let t = search::continue_search(query, c, expansions, nodes, front, out);
    put_tick(t, progress)
}
