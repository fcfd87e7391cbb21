// What an edge leads to (01, The graph, "Edge"): a waypoint, which carries its kind of movement; and why there is none (02, No. 3). An edge is an `Option<Waypoint>`,
// and what the edge check answers a `Result<Waypoint, Reason>`.
ghost use Rattle.std.specs.Prelude.{◌≡◌};
ghost use Rattle.moves.specs.Moves.{movement_number, reason_number};

use world::Point;

#[derive(Clone, Copy)]
pub enum Movement {
    Walk,
    Step,
    Jump,
    Drop,
}

// The point that an edge leads to, how a body comes there, and the door that it meets on the way (02, No. 5): a state's number, or 4294967295.
#[derive(Clone, Copy)]
pub struct Waypoint {
    pub feet: Point,
    pub lift: f64,
    pub movement: Movement,
    pub door: u64,
}

// Why there is no edge (02, No. 3): the first of the checks that fails, in 01's order.
#[derive(Clone, Copy)]
pub enum Reason {
    TooHigh,
    TooDeep,
    TargetOutOfRange,
    RaisedOutOfRange,
    TargetNotStandable,
    LiftBlocked,
    CrossingBlocked,
    SettleBlocked,
    Unsupported,
}

// 01's number of a movement.
impl From<Movement> for u64 {
    ghost from_gives = { λ m n. n ≡ movement_number m };

    fn from(m: Movement) -> u64 {
        match m {
            Movement::Walk => 0,
            Movement::Step => 1,
            Movement::Jump => 2,
            Movement::Drop => 3,
        }
    }
}

// The number of a reason, in 02's order.
impl From<Reason> for u64 {
    ghost from_gives = { λ why n. n ≡ reason_number why };

    fn from(why: Reason) -> u64 {
        match why {
            Reason::TooHigh => 101,
            Reason::TooDeep => 102,
            Reason::TargetOutOfRange => 103,
            Reason::RaisedOutOfRange => 104,
            Reason::TargetNotStandable => 105,
            Reason::LiftBlocked => 106,
            Reason::CrossingBlocked => 107,
            Reason::SettleBlocked => 108,
            Reason::Unsupported => 109,
        }
    }
}
