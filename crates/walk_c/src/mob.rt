// A mob's search (01, Policy: "It judges 8, fills the permission table, which stays filled, then searches in the order above").
ghost use Rattle.std.specs.Prelude.{◌≡◌, length};
ghost use Rattle.policy.specs.Permission.{permission_table};
ghost use Rattle.outcomes.specs.Outcomes.{path_number};
ghost use Rattle.find_path.specs.FindPath.{path, nodes_after_path, front_after_path, index_after_path, out_after_path};
ghost use Rattle.c_records.specs.Records.{window_in, body_in, policy_in, in_water};
ghost use Rattle.c_records.specs.Asked.{start_asked, goal_asked};
ghost use Rattle.c_answers.specs.Answers.{path_written};

use c_answers::put_path;
use c_records::mob_in;

// The outcome's number, 0 to 5, or 8 BadTable. `policy` has a bit for each wish of the policy, and for a body in water; `ends` is the start and the goal.
#[unsafe(no_mangle)]
pub extern "C" fn walkprint_find_path(
    policy: u64,
    jump_height: f64,
    flags: &[u8],
    window: &[u8],
    cells: &[u8],
    permissions: &mut [u8],
    shapes: &[u8],
    boxes: &[u8],
    ends: &[u8],
    body: &[u8],
    nodes: &mut [u8],
    front: &mut [u8],
    index: &mut [u8],
    out: &mut [u8],
    answer: &mut [u8],
) -> u64
    ensures number { result ≡ path_number (path (policy_in policy jump_height) (in_water policy) flags.now (window_in window.now) cells.now permissions.old shapes.now boxes.now (start_asked window.now ends.now body.now) (goal_asked window.now ends.now body.now) (body_in body.now) (length nodes.old) (length front.old) (length index.old) (length out.old)) }
    ensures answer { answer.new ≡ path_written (path (policy_in policy jump_height) (in_water policy) flags.now (window_in window.now) cells.now permissions.old shapes.now boxes.now (start_asked window.now ends.now body.now) (goal_asked window.now ends.now body.now) (body_in body.now) (length nodes.old) (length front.old) (length index.old) (length out.old)) answer.old }
    ensures permissions { permissions.new ≡ permission_table (policy_in policy jump_height) (in_water policy) flags.now permissions.old }
    ensures nodes { nodes.new ≡ nodes_after_path (policy_in policy jump_height) (in_water policy) flags.now (window_in window.now) cells.now permissions.old shapes.now boxes.now (start_asked window.now ends.now body.now) (goal_asked window.now ends.now body.now) (body_in body.now) nodes.old front.old index.old out.old }
    ensures front { front.new ≡ front_after_path (policy_in policy jump_height) (in_water policy) flags.now (window_in window.now) cells.now permissions.old shapes.now boxes.now (start_asked window.now ends.now body.now) (goal_asked window.now ends.now body.now) (body_in body.now) nodes.old front.old index.old out.old }
    ensures index { index.new ≡ index_after_path (policy_in policy jump_height) (in_water policy) flags.now (window_in window.now) cells.now permissions.old shapes.now boxes.now (start_asked window.now ends.now body.now) (goal_asked window.now ends.now body.now) (body_in body.now) nodes.old front.old index.old out.old }
    ensures out { out.new ≡ out_after_path (policy_in policy jump_height) (in_water policy) flags.now (window_in window.now) cells.now permissions.old shapes.now boxes.now (start_asked window.now ends.now body.now) (goal_asked window.now ends.now body.now) (body_in body.now) nodes.old front.old index.old out.old }
{
    let m = mob_in(policy, jump_height, window, ends, body);
    let a = find_path::find_path(
        m,
        flags,
        cells,
        permissions,
        shapes,
        boxes,
        nodes,
        front,
        index,
        out,
    );
    put_path(a, answer)
}
