// A room for parts of a centre line, gathered in any order and joined in the order of the way. Which parts it keeps decides nothing but the time: what is
// joined is covered.
ghost use Rattle.std.specs.Prelude.{◌≡◌, [], ◌∷◌, ◌≤◌, ◌<◌, List, length, take};
ghost use Rattle.support.specs.declared.Interval.{Interval};
ghost use Rattle.support.specs.Joints.{Gathers, Joined};

use std::marker::Model;
use support::Interval;

// How many parts the room has places for: fixed memory, since the search has no heap.
const PLACES: usize = 1024;

// The parts that are kept, the nearest last: contracts see them as their list.
#[derive(Drop)]
pub(crate) struct Parts {
    places: [Interval; PLACES],
    count: usize,
}

impl Model for Parts {
    ghost Value = { List Interval };

    ghost view = { λ p. take p.count p.places };

    ghost invariant = { λ p. p.count ≤ 1024 };
}

impl Parts {
    // A room with no parts.
    pub(crate) fn new() -> Parts
        ensures { result ≡ [] }
    {
        let none = Interval {
            begin: 0.0,
            end: 0.0,
        };
        Parts {
            places: [none; PLACES],
            count: 0,
        }
    }

    // A place for one part more: of a room that is full the nearer half moves to its front, and the rest is left for a later pass.
    fn make_room(&mut self)
        ensures gathers { Gathers [] self.old self.new }
        ensures room { length self.new < 1024 }
    {
        if self.count < PLACES {
            return;
        }
        let kept = PLACES / 2;
        self.places.copy_within(PLACES - kept..PLACES, 0);
        self.count = kept;
    }

    // A part kept in its place: the nearest last, so that parts in falling order, which a pass joins worst, are put without moving others.
    pub(crate) fn keep(&mut self, i: Interval)
        ensures { Gathers (i ∷ []) self.old self.new }
    {
        self.make_room();
        let n = self.count;
        let nearer = self.places[..n]
            .iter()
            .rev()
            .take_while(|part| part.begin < i.begin)
            .count();
        let k = n - nearer;
        self.places.copy_within(k..n, k + 1);
        self.places[k] = i;
        self.count = n + 1;
    }

    // What is covered with the parts, the nearest first, up to one that begins more than E behind.
    pub(crate) fn join(&self, covered: f64) -> f64
        ensures { Joined self.now covered result }
    {
        let mut so_far = covered;
        for part in self.places[..self.count].iter().rev() {
            if part.begin <= so_far + floats::E {
                so_far = floats::max(part.end, so_far);
            } else {
                break;
            }
        }
        so_far
    }
}
