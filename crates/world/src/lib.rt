// The world (01, "Boxes" and "Tables"): points, boxes, and what stands in a cell.
//
// The types stand here, `records` reads the tables, and `run` goes over a shape's boxes; the cell at a place is the crate `space`, what is done with boxes is
// `boxes`. Every public function answers for every input: a run of boxes ends where its table does.
#![tactic(auto)]

mod records;
mod run;

pub use records::{box_at, entry_at, point_at, size_above};
pub use run::{Run, boxes_from, boxes_in};

// A place in the world, or a difference of two.
#[derive(Clone, Copy)]
pub struct Point {
    pub x: f64,
    pub y: f64,
    pub z: f64,
}

// A box: its least and its greatest corner.
#[derive(Clone, Copy)]
pub struct Aabb {
    pub min: Point,
    pub max: Point,
}

// What walks: how wide and how high it is, and how high it steps.
#[derive(Clone, Copy)]
pub struct Body {
    pub width: f64,
    pub height: f64,
    pub step_height: f64,
}

// What a search is asked: the two ends, how far it may look, how many points it may keep, and what a step may rise or fall. The budget is a
// u64, so that no number of a caller is cut before it is judged.
#[derive(Clone, Copy)]
pub struct Request {
    pub start: Point,
    pub goal: Point,
    pub max_range: f64,
    pub node_budget: u64,
    pub step_height: f64,
    pub jump_height: f64,
    pub max_drop: f64,
}

// Where the cell table lies: its least cell, and how many cells it has each way.
#[derive(Clone, Copy)]
pub struct Window {
    pub x: i32,
    pub y: i32,
    pub z: i32,
    pub sx: u32,
    pub sy: u32,
    pub sz: u32,
}

// A world as it is lent: where its cell table lies, the cells, a permission byte a state, the shapes, and the boxes.
#[derive(Clone, Copy)]
pub struct World<'a> {
    pub window: Window,
    pub cells: &'a [u8],
    pub perms: &'a [u8],
    pub shapes: &'a [u8],
    pub boxes: &'a [u8],
}

// What is asked of a world: a request, for a body.
#[derive(Clone, Copy)]
pub struct Query<'a> {
    pub world: World<'a>,
    pub request: Request,
    pub body: Body,
}

// What the tables say of a cell that they know: whether a body may be in it, whether a body may stand on it, its run of box records, which has none where the
// cell does not collide, whether it is such a cell, and the number of its state, which is its door then (02, No. 5). Each cell has a state, so it is no Option.
#[derive(Clone, Copy)]
pub struct Cell {
    pub occupied: bool,
    pub support: bool,
    pub first: u32,
    pub count: u32,
    pub through: bool,
    pub state: u32,
}

// No door (02, No. 5).
pub const NO_DOOR: u32 = 4294967295;
