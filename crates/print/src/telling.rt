// What there is to tell of a scene (01, "Scenes and walkprint"): its refusal, or what the search answers.
ghost use Rattle.std.specs.Prelude.{◌≡◌, ◌*◌, take};
ghost use Rattle.scene_state.specs.Answers.{scene_answer};
ghost use Rattle.print.specs.Print.{refusal, told_error, told_of, nodes_of, front_of, index_of, out_of, told};

use outcomes::Answer;
use print_lines::Told;
use scene_state::{Scene, SceneError};
use world::{Query, World};

// The first n bytes of a table, or all. (`replay_check` has the same: no crate below both is about parts of tables.)
fn front_of(s: &[u8], n: usize) -> &[u8]
    ensures { result.now ≡ take n s.now }
{
    &s[..n.min(s.len())]
}

#[tactic(auto, unfolding(crate::specs::Print::refusal))]
fn refusal(number: u64, bad: u64) -> Told
    ensures { result ≡ refusal number bad }
{
    Told {
        number,
        bad,
        waypoints: 0,
        retained: 0,
        closed: 0,
        total: 0.0,
    }
}

// The number of a scene's refusal, and its record: by hand and not by From, since the record goes with the number.
fn refused(error: SceneError) -> Told
    ensures { result ≡ told_error error }
{
    match error {
        SceneError::NoRoom => refusal(5, 0),
        SceneError::BadScene(k) => refusal(7, k),
    }
}

// A search's answer, with its list, of 48 bytes a record.
fn told_of(a: Answer, out: &[u8]) -> Told
    ensures { result ≡ told_of a out.now }
{
    let list = front_of(out, a.count.saturating_mul(48));
    Told {
        number: u64::from(a.outcome),
        bad: 0,
        waypoints: a.count,
        retained: a.retained as u64,
        closed: a.closed,
        total: lengths::length_of(list),
    }
}

// The end of the input: a whole scene is searched, with tables of exactly the sizes in use, and its list written to `out`. The tables come one by one,
// since a scene that was not read has no window, and so no world.
pub fn tell(
    answer: Result<Scene, SceneError>,
    cells: &[u8],
    perms: &[u8],
    shapes: &[u8],
    boxes: &[u8],
    nodes: &mut [u8],
    front: &mut [u8],
    index: &mut [u8],
    out: &mut [u8],
) -> Told
    ensures answer { result ≡ told cells.now perms.now shapes.now boxes.now (scene_answer answer) nodes.old front.old index.old out.old }
    ensures nodes { nodes.new ≡ nodes_of cells.now perms.now shapes.now boxes.now (scene_answer answer) nodes.old front.old index.old out.old }
    ensures front { front.new ≡ front_of cells.now perms.now shapes.now boxes.now (scene_answer answer) nodes.old front.old index.old out.old }
    ensures index { index.new ≡ index_of cells.now perms.now shapes.now boxes.now (scene_answer answer) nodes.old front.old index.old out.old }
    ensures out { out.new ≡ out_of cells.now perms.now shapes.now boxes.now (scene_answer answer) nodes.old front.old index.old out.old }
{
    match answer {
        Err(error) => refused(error),
        Ok(s) => {
            let used = s.in_use;
            let world = World {
                window: s.window,
                cells: front_of(cells, used.cells),
                perms: front_of(perms, used.perms),
                shapes: front_of(shapes, used.shapes),
                boxes: front_of(boxes, used.boxes),
            };
            let query = Query {
                world,
                request: s.request,
                body: s.body,
            };
            let a = search::find_walk_path(query, nodes, front, index, out);
            told_of(a, out)
        }
    }
}
