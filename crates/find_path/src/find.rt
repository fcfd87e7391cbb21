// A mob's search (01, Policy, `find_path`): the permission table of its policy, then the search that its policy and its body ask for.
ghost use Rattle.std.specs.Prelude.{◌≡◌, length};
ghost use Rattle.policy.specs.Permission.{permission_table};
ghost use Rattle.find_path.specs.FindPath.{path, nodes_after_path, front_after_path, index_after_path, out_after_path};

use mob_request::{Mob, request_of};
use outcomes::Answer;
use policy::BadTable;
use world::{Query, World};

// A way for a mob from its start to its goal. `perms` is filled by the flags of the states, unless the two differ in length, and stays filled whatever the
// search answers; the list is written to `out`; `nodes`, `front` and `index` are the search's rooms. The tables
// come one by one, since `perms` is written before there is a world.
pub fn find_path(
    mob: Mob,
    flags: &[u8],
    cells: &[u8],
    perms: &mut [u8],
    shapes: &[u8],
    boxes: &[u8],
    nodes: &mut [u8],
    front: &mut [u8],
    index: &mut [u8],
    out: &mut [u8],
) -> Result<Answer, BadTable>
    ensures answer { result ≡ path mob.policy mob.in_water flags.now mob.window cells.now perms.old shapes.now boxes.now mob.start mob.goal mob.body (length nodes.old) (length front.old) (length index.old) (length out.old) }
    ensures permissions { perms.new ≡ permission_table mob.policy mob.in_water flags.now perms.old }
    ensures nodes { nodes.new ≡ nodes_after_path mob.policy mob.in_water flags.now mob.window cells.now perms.old shapes.now boxes.now mob.start mob.goal mob.body nodes.old front.old index.old out.old }
    ensures front { front.new ≡ front_after_path mob.policy mob.in_water flags.now mob.window cells.now perms.old shapes.now boxes.now mob.start mob.goal mob.body nodes.old front.old index.old out.old }
    ensures index { index.new ≡ index_after_path mob.policy mob.in_water flags.now mob.window cells.now perms.old shapes.now boxes.now mob.start mob.goal mob.body nodes.old front.old index.old out.old }
    ensures out { out.new ≡ out_after_path mob.policy mob.in_water flags.now mob.window cells.now perms.old shapes.now boxes.now mob.start mob.goal mob.body nodes.old front.old index.old out.old }
{
    mob.policy.fill_permissions(mob.in_water, flags, perms)?;
    let world = World {
        window: mob.window,
        cells,
        perms,
        shapes,
        boxes,
    };
    let query = Query {
        world,
        request: request_of(mob.policy, mob.start, mob.goal, mob.body),
        body: mob.body,
    };
    Ok(search::find_walk_path(query, nodes, front, index, out))
}
