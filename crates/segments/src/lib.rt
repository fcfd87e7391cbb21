// Supported segments (01, The graph): whether what lies under the way from one point to another carries a body.
//
// The shapes under the footprint are passed over as often as the part of the centre line that is covered grows. The first pass sees every shape, and so any
// that refuses. `pass` has the loop over the cells; one shape, and the definitions, are the crate `support`. Where passes are many, because the boxes come in
// another order than the way, `far` joins many of them in one.
#![tactic(auto)]

mod far;
mod parts;
mod pass;

ghost use Rattle.std.specs.Prelude.{◌≡◌};
ghost use Rattle.world.specs.Space.{space_of};
ghost use Rattle.regions.specs.Regions.{cells_of};
ghost use Rattle.support.specs.Support.{shapes_at, carried, supported};

use regions::Region;
use support::Way;
use world::{Point, World};

// So many passes are made before parts that lie further ahead are gathered. Of nearly all ways two are enough.
const PATIENCE: u8 = 8;

// Passes over the shapes under a way, as long as they cover more of it.
fn carries(world: World, way: Way, region: Region) -> bool
    ensures { result ≡ carried way.under way.from way.to (shapes_at (space_of world.entry) (cells_of region)) }
{
    let mut covered = 0.0;
    let mut passes: u8 = 0; // counted up to PATIENCE alone: how many passes there are is not known
    loop {
        let Some(to) = pass::reach_all(world, way, region, covered) else {
            return false;
        };
        let enough = 1.0 - floats::E <= to;
        if enough | !(covered < to) {
            return enough;
        }
        covered = to;
        if passes < PATIENCE {
            passes += 1;
        } else {
            covered = far::join_far(world, way, region, covered);
        }
    }
}

// Whether the way from one point to another is supported.
pub fn supported_segment(world: World, width: f64, from: Point, to: Point) -> bool
    ensures { result ≡ supported (space_of world.entry) width from to }
{
    let f = support::footprint(width, from, to);
    let ys = regions::floors(f.min.y, f.max.y, 2);
    let xs = regions::reached(f.min.x, f.max.x, 0);
    let zs = regions::reached(f.min.z, f.max.z, 0);
    let way = Way { from, to, under: f };
    carries(world, way, Region { ys, xs, zs })
}
