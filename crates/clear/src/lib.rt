// Clear areas (01, The graph): whether a body fits into an area, by the boxes and the permissions of the cells that it reaches, and which door it meets there. The
// door (02, No. 5) is found by the same pass: the cells come in the clear check's y, x, z order.
//
// An area that is clear answers its door, as a number: a state's, or `NO_DOOR`; one that is not answers None.
#![tactic(auto)]

ghost use Rattle.std.specs.Prelude.{◌≡◌, cond, map};
ghost use Rattle.regions.specs.Regions.{cells_of};
ghost use Rattle.world.specs.declared.Aabb.{Aabb};
ghost use Rattle.world.specs.Boxes.{moved, corner};
ghost use Rattle.world.specs.Run.{boxes_left};
ghost use Rattle.world.specs.Space.{no_door, space_of};
ghost use Rattle.clear.specs.Clear.{hits, clear};
ghost use Rattle.clear.specs.Corridors.{or_else, corridor};
ghost use Rattle.clear.specs.Laws.{cell_corridor, corridor_along};

use regions::Region;
use world::{Aabb, Cell, NO_DOOR, Point, Run, World};

// The first of two doors: the second where the first is none. No door is a number, as 02 gives it (No. 5), and a state may have it: `first_door` of Corridors. That
// there is no second one, as with most cells, is asked first.
#[tactic(auto, using(crate::specs::Laws::or_none), unfolding(crate::specs::Corridors::or_else))]
pub fn or_else(a: u32, b: u32) -> u32
    ensures { result ≡ or_else a b }
{
    if b == NO_DOOR || a != NO_DOOR { a } else { b }
}

// A door where there is one.
fn door_if(there: bool, door: u32) -> u32
    ensures { result ≡ cond there door no_door }
{
    if there { door } else { NO_DOOR }
}

// Whether one of the boxes of a run, moved by a point, intersects an area.
fn run_hits(run: Run, by: Point, area: Aabb) -> bool
    ensures { result ≡ hits area (map (λ (b : Aabb). moved b by) (boxes_left run.entry)) }
{
    let mut left = run;
    left.any(|b| boxes::intersects(boxes::offset(b, by), area))
}

// The door of a cell that is free for an area: it has one only where its voxel intersects the area. Of air, as most cells are, nothing is worked out.
fn cell_corridor(world: World, area: Aabb, x: i64, y: i64, z: i64) -> Option<u32>
    ensures { result ≡ cell_corridor area (corner x y z) (space_of world.entry x y z) }
{
    let Some(
        Cell {
            occupied,
            support: _,
            first,
            count,
            through,
            state,
        },
    ) = space::cell_at(world, x, y, z)
    else {
        let p = points::corner_of(x, y, z);
        let meets = boxes::intersects(boxes::voxel_at(p), area);
        let hit = boxes::intersects(boxes::offset(boxes::unit(), p), area);
        return (!(meets | hit)).then_some(NO_DOOR);
    };
    if occupied & (count == 0) & !through {
        return Some(NO_DOOR);
    }
    let p = points::corner_of(x, y, z);
    let meets = boxes::intersects(boxes::voxel_at(p), area);
    if meets & !occupied {
        return None;
    }
    let run = world::boxes_in(world.boxes, first, count);
    let hit = run_hits(run, p, area);
    (!hit).then_some(door_if(meets & through, state))
}

// The first door of the cells of a region whose axes x and z are exchanged, where all of them are free.
fn all_free(world: World, area: Aabb, region: Region) -> Option<u32>
    ensures { result ≡ corridor_along (space_of world.entry) area (cells_of region) }
{
    let mut door = NO_DOOR;
    for at in region.cells() {
        let here = cell_corridor(world, area, at.z, at.y, at.x)?;
        door = or_else(door, here);
    }
    Some(door)
}

// The door of an area that is clear. A region's cells come with x fastest, and the clear check's with z fastest, so the two axes are exchanged.
#[tactic(auto, using(crate::specs::Order::corridor_is, regions::specs::RangeLaws::less_none), unfolding(crate::specs::Clear::around))]
pub fn corridor_of(world: World, area: Aabb) -> Option<u32>
    ensures { result ≡ corridor (space_of world.entry) area }
{
    let ys = regions::reached(area.min.y, area.max.y, 1);
    let xs = regions::reached(area.min.x, area.max.x, 0);
    let zs = regions::reached(area.min.z, area.max.z, 0);
    let region = Region { ys, zs: xs, xs: zs };
    all_free(world, area, region)
}

// Whether an area is clear.
#[tactic(auto, using(crate::specs::Laws::is_clear))]
pub fn clear_area(world: World, area: Aabb) -> bool
    ensures { result ≡ clear (space_of world.entry) area }
{
    corridor_of(world, area).is_some()
}
