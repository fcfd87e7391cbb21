// The four sides of a point, and the diagonals between them (01, The graph, "Graph step": "The four side answers of one expansion").
#![tactic(auto)]

ghost use Rattle.std.specs.Prelude.{◌≡◌};
ghost use Rattle.sides.specs.Sides.{level_to, pair_at, side_at, no_sides, looked_by, answered_by};

use world::Point;

// The two sides that a diagonal needs, numbered from 0 at (1, 0).
#[derive(Clone, Copy)]
pub struct SidePair(pub usize, pub usize);

pub const DIAGONAL_SIDES: [SidePair; 4] = [
    SidePair(0, 1),
    SidePair(2, 1),
    SidePair(2, 3),
    SidePair(0, 3),
];

// The side answers of one expansion, handed from column to column: whether a side has an edge that does not climb.
#[derive(Clone, Copy)]
pub struct Sides {
    pub level: [bool; 4],
}

// Whether an edge from one point to another does not climb.
#[tactic(auto, unfolding(crate::specs::Sides::level_to))]
pub fn is_level(from: Point, to: Point) -> bool
    ensures { result ≡ level_to from to }
{
    to.y <= from.y + floats::E
}

// Whether column n is one of the four sides.
pub fn is_side(n: usize) -> bool
    ensures { result ≡ side_at n }
{
    (0 < n) & (n < 5)
}

// The sides of diagonal d; past the last twice the first side.
#[tactic(auto, unfolding(crate::specs::Sides::pair_at))]
fn pair_at(d: usize) -> SidePair
    ensures { result ≡ pair_at d }
{
    DIAGONAL_SIDES.get(d).copied().unwrap_or(SidePair(0, 0))
}

impl Sides {
    // Before any side has answered.
    #[tactic(auto, unfolding(crate::specs::Sides::no_sides))]
    pub fn none() -> Self
        ensures { result ≡ no_sides }
    {
        Self { level: [false; 4] }
    }

    // Whether column n is looked at.
    pub fn looked(self, n: usize) -> bool
        ensures { result ≡ looked_by self n }
    {
        if n < 5 {
            return true;
        }
        let SidePair(a, b) = pair_at(n - 5);
        self.level[a] & self.level[b]
    }

    // The answers once column n has been looked at: only a side's is kept.
    pub fn answered(mut self, n: usize, level: bool) -> Self
        ensures { result ≡ answered_by self n level }
    {
        if is_side(n) {
            let k = n - 1;
            self.level[k] = level;
        }
        self
    }
}
