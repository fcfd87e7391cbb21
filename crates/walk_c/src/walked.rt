// The walk-back (01, Modules 5; 02, No. 3).
ghost use Rattle.std.specs.Prelude.{◌≡◌};
ghost use Rattle.walk_back.specs.WalkBack.{walked, walked_number, walked_places};
ghost use Rattle.c_records.specs.Records.{window_in, body_in};
ghost use Rattle.c_records.specs.Asked.{asked};
ghost use Rattle.c_answers.specs.Answers.{place_written};

use crate::query::query_in;
use c_answers::put_walked;

// Whether a list of waypoint records is a route: 0 yes, 3 BadWorld, 4 TooLarge, or the first reason why it is none: 101 to 109, 117 and 118 of a pair, whose later
// point's place is then in the first 8 bytes of `place`, where they fit, and 111 to 116 and 119.
#[unsafe(no_mangle)]
pub extern "C" fn walkprint_walk_back(
    window: &[u8],
    cells: &[u8],
    permissions: &[u8],
    shapes: &[u8],
    boxes: &[u8],
    request: &[u8],
    body: &[u8],
    list: &[u8],
    place: &mut [u8],
) -> u64
    ensures number { result ≡ walked_number (walked (window_in window.now) cells.now permissions.now shapes.now boxes.now (asked window.now request.now body.now) (body_in body.now) list.now) }
    ensures place { place.new ≡ place_written (walked_places (walked (window_in window.now) cells.now permissions.now shapes.now boxes.now (asked window.now request.now body.now) (body_in body.now) list.now)) place.old }
{
    let query = query_in(window, cells, permissions, shapes, boxes, request, body);
    put_walked(walk_back::walk_back(query, list), place)
}
