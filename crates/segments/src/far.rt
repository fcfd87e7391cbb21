// Parts of a centre line that lie further ahead (01, The graph, supported segments): gathered in one pass and joined in order. A pass alone joins the boxes
// that come in the order of the way; boxes in another order would need a pass for each. Which parts are gathered decides nothing but the time: what is
// joined is covered, and `carries` ends only after a pass that covers no more.
ghost use Rattle.std.specs.Prelude.{◌≡◌, true, [], ◌∷◌};
ghost use Rattle.regions.specs.Regions.{cells_of};
ghost use Rattle.world.specs.Run.{boxes_left};
ghost use Rattle.world.specs.Space.{space_of};
ghost use Rattle.support.specs.Support.{shapes_of, shapes_at};
ghost use Rattle.support.specs.Pass.{run_shapes};
ghost use Rattle.support.specs.PassLaws.{found};
ghost use Rattle.support.specs.Joints.{Gathers, JoinedFrom};

use crate::parts::Parts;
use regions::{Region, Spot};
use support::Way;
use world::{Aabb, Point, Run, World};

// What one box makes of the parts kept so far: its part, where it counts and covers more.
fn keep_box(way: Way, b: Aabb, covered: f64, parts: &mut Parts)
    ensures { Gathers (found way (record { support = true; box = b } ∷ [])) parts.old parts.new }
{
    let Some(i) = support::part_over(way, b) else {
        return;
    };
    if covered < i.end {
        parts.keep(i);
    }
}

// The parts of a run of boxes, each moved by a point.
fn keep_run(run: Run, by: Point, way: Way, covered: f64, parts: &mut Parts)
    ensures { Gathers (found way (run_shapes true by (boxes_left run.entry))) parts.old parts.new }
{
    for b in run {
        keep_box(way, boxes::offset(b, by), covered, parts);
    }
}

// The parts of a cell; an unknown one is no support, and has none.
fn keep_cell(world: World, way: Way, at: Spot, covered: f64, parts: &mut Parts)
    ensures { Gathers (found way (shapes_of (space_of world.entry at.x at.y at.z))) parts.old parts.new }
{
    let Some(cell) = space::cell_at(world, at.x, at.y, at.z) else {
        return;
    };
    if cell.count == 0 {
        return;
    }
    let by = points::corner_of(at.x, at.y, at.z);
    let run = world::boxes_in(world.boxes, cell.first, cell.count);
    keep_run(run, by, way, covered, parts);
}

// The parts of the cells of a region.
fn keep_all(world: World, way: Way, region: Region, covered: f64, parts: &mut Parts)
    ensures { Gathers (found way (shapes_at (space_of world.entry) (cells_of region))) parts.old parts.new }
{
    for at in region.cells() {
        keep_cell(world, way, at, covered, parts);
    }
}

// What is covered with parts that lie further ahead.
pub(crate) fn join_far(world: World, way: Way, region: Region, covered: f64) -> f64
    ensures { JoinedFrom (found way (shapes_at (space_of world.entry) (cells_of region))) covered result }
{
    let mut parts = Parts::new();
    keep_all(world, way, region, covered, &mut parts);
    parts.join(covered)
}
