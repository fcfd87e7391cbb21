// How a walk meets a block state that may be a door (01, Policy).
#[derive(Clone, Copy)]
pub enum Passage {
    // No door, or one that is left as it stands: only its boxes count.
    Shape,
    // A door that is no obstacle, because the mob opens or breaks it.
    Through,
    // A door whose cell is shut to the mob.
    Wall,
}
