// What carries a body (01, The graph, supported segments): which shapes count under the way from one point to another, and what one of them does to
// it. `line` has the part of the centre line above one box, `shape` what one more shape makes of what is covered. The crate `segments` goes over the
// cells; what a supported segment is, is defined here.
#![tactic(auto)]

mod line;
mod shape;

pub use shape::{footprint, part_over, reach_shape};
use world::{Aabb, Point};

// A part of the centre line, borders included: 0 is at the one foot and 1 at the other.
#[derive(Clone, Copy)]
pub struct Interval {
    pub begin: f64,
    pub end: f64,
}

// A way from one foot to the other, and its footprint.
#[derive(Clone, Copy)]
pub struct Way {
    pub from: Point,
    pub to: Point,
    pub under: Aabb,
}
