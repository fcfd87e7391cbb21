// The heights of a column (01, The graph, "Graph step"): the box tops that a step may go to, smallest first.
//
// Which tops count is here; `lowest` has the lowest so many of them, in one pass over a column's cells, and `batches` goes through a column by such passes.
#![tactic(auto)]

mod batches;
mod lowest;

ghost use Rattle.std.specs.Prelude.{◌≡◌};
ghost use Rattle.world.specs.Space.{space_of};
ghost use Rattle.heights.specs.Heights.{reaches, next_after};
ghost use Rattle.heights.specs.Lowest.{beyond};

pub use batches::{Batch, advance, height_at};
pub use lowest::lowest_tops;
use world::{Aabb, World};

// The tops that a step may go to lie from low to high.
#[derive(Clone, Copy)]
pub struct Band {
    pub low: f64,
    pub high: f64,
}

// Where a column is looked at: at its centre (x, z), in a band.
#[derive(Clone, Copy)]
pub struct Shaft {
    pub band: Band,
    pub x: f64,
    pub z: f64,
}

// Whether a box has a top in the band, and spans the centre.
fn reaches_to(shaft: Shaft, b: Aabb) -> bool
    ensures { result ≡ reaches shaft.band shaft.x shaft.z b }
{
    let Shaft { band, x, z } = shaft;
    // A column's boxes may be many, and those off the band are known by their top alone.
    let level = (band.low - floats::E <= b.max.y) & (b.max.y <= band.high + floats::E);
    if !level {
        return false;
    }
    (b.min.x <= x) & (x <= b.max.x) & (b.min.z <= z) & (z <= b.max.z)
}

// Whether a top is not within E of the last kept; where none is kept yet, every top is.
#[tactic(auto, unfolding(crate::specs::Lowest::beyond, crate::specs::Heights::within))]
fn is_beyond(after: Option<f64>, top: f64) -> bool
    ensures { result ≡ beyond after top }
{
    let Some(kept) = after else {
        return true;
    };
    !((top <= kept) | (top - kept <= floats::E))
}

// The next of the heights of a column, after the last kept one; None where there is none.
pub fn next_height(world: World, shaft: Shaft, after: Option<f64>) -> Option<f64>
    ensures { result ≡ next_after (space_of world.entry) shaft.band shaft.x shaft.z after }
{
    let mut one = [0.0; 1];
    let count = lowest_tops(world, shaft, after, &mut one);
    let only = Batch { count, at: 0 };
    height_at(&one, only)
}
