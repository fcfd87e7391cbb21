// What has been read of a scene (01, "Scenes and walkprint"), and why a scene is refused.
use scene_rules::Counts;
use world::{Body, Request, Window};

// What the good records so far say: how many they are, the last one's kind (its byte; 0 before the first), what kinds 1 to 3 gave, and how much of each table
// is made. What no record has given is zero.
#[derive(Clone, Copy)]
pub struct Reading {
    pub number: u64,
    pub kind: u8,
    pub request: Request,
    pub body: Body,
    pub window: Window,
    pub counts: Counts,
}

// Why a scene is refused: 7 BadScene with the number of the first bad record; or 5 NoRoom.
#[derive(Clone, Copy)]
pub enum SceneError {
    BadScene(u64),
    NoRoom,
}

// How many bytes of each table the scene made.
#[derive(Clone, Copy)]
pub struct InUse {
    pub cells: usize,
    pub perms: usize,
    pub shapes: usize,
    pub boxes: usize,
}

// A whole scene: what a search is asked, and the part of each table to hand on.
#[derive(Clone, Copy)]
pub struct Scene {
    pub request: Request,
    pub body: Body,
    pub window: Window,
    pub in_use: InUse,
}
