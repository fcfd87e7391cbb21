// One pass over the shapes under a footprint (01, The graph, supported segments): how far they cover the centre line, of what is covered so far.
//
// A shape that counts and is no support refuses the way, and the pass ends there, with none.
ghost use Rattle.std.specs.Prelude.{◌≡◌};
ghost use Rattle.regions.specs.Regions.{cells_of};
ghost use Rattle.world.specs.Run.{boxes_left};
ghost use Rattle.world.specs.Space.{space_of};
ghost use Rattle.support.specs.Support.{shapes_of, shapes_at};
ghost use Rattle.support.specs.Pass.{pass, run_shapes};

use regions::{Region, Spot};
use support::Way;
use world::{Point, Run, World};

// The shapes of a run of boxes, each moved by a point.
fn reach_run(run: Run, by: Point, support: bool, way: Way, covered: f64) -> Option<f64>
    ensures { result ≡ pass way (Some covered) (run_shapes support by (boxes_left run.entry)) }
{
    let mut to = covered;
    for b in run {
        to = support::reach_shape(way, support, boxes::offset(b, by), to)?;
    }
    Some(to)
}

// The shapes of a cell. Most cells have none: their place is not worked out.
fn reach_cell(world: World, way: Way, at: Spot, covered: f64) -> Option<f64>
    ensures { result ≡ pass way (Some covered) (shapes_of (space_of world.entry at.x at.y at.z)) }
{
    let Some(cell) = space::cell_at(world, at.x, at.y, at.z) else {
        let cube = boxes::offset(boxes::unit(), points::corner_of(at.x, at.y, at.z));
        return support::reach_shape(way, false, cube, covered);
    };
    if cell.count == 0 {
        return Some(covered);
    }
    let by = points::corner_of(at.x, at.y, at.z);
    let run = world::boxes_in(world.boxes, cell.first, cell.count);
    reach_run(run, by, cell.support, way, covered)
}

// The shapes of the cells of a region.
pub(crate) fn reach_all(world: World, way: Way, region: Region, covered: f64) -> Option<f64>
    ensures { result ≡ pass way (Some covered) (shapes_at (space_of world.entry) (cells_of region)) }
{
    let mut to = covered;
    for at in region.cells() {
        to = reach_cell(world, way, at, to)?;
    }
    Some(to)
}
