// Which points are the same (01: "Same point: equal bits, with -0.0 as 0."), on the words of records. So a derived `==` would not do.
#![tactic(auto)]

ghost use Rattle.std.specs.Prelude.{◌≡◌};
ghost use Rattle.rooms.specs.Waypoints.{canonical_word, same_word, same_point};

use rooms::Feet;

// -0.0's pattern as 0.0's, and any other as it is.
#[tactic(auto, unfolding(rooms::specs::Waypoints::canonical_word))]
pub fn canonical_word(n: u64) -> u64
    ensures { result ≡ canonical_word n }
{
    if n == 0x8000_0000_0000_0000 { 0 } else { n }
}

// Whether two coordinates, or two lifts, are the same.
#[tactic(auto, unfolding(rooms::specs::Waypoints::same_word))]
pub fn same_word(a: u64, b: u64) -> bool
    ensures { result ≡ same_word a b }
{
    canonical_word(a) == canonical_word(b)
}

// Whether two points are the same.
#[tactic(auto, unfolding(rooms::specs::Waypoints::same_point))]
pub fn same_point(p: Feet, q: Feet) -> bool
    ensures { result ≡ same_point p q }
{
    same_word(p.x, q.x) & same_word(p.y, q.y) & same_word(p.z, q.z)
}
