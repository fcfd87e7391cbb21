// Costs and estimates, as the patterns of f64 that the records hold (01: "Estimate = cost + 1.5 × distance to goal"; "sums run in the source's order").
#![tactic(auto)]

ghost use Rattle.std.specs.Prelude.{◌≡◌};
ghost use Rattle.costs.specs.Costs.{apart, cost_by, estimate_by, cheaper, pushed_as, lowered};

use rooms::{Entry, Feet};

// How far apart two points are.
#[tactic(auto, unfolding(crate::specs::Costs::apart))]
fn apart(p: Feet, q: Feet) -> f64
    ensures { result ≡ apart p q }
{
    let x = floats::float_of(p.x) - floats::float_of(q.x);
    let y = floats::float_of(p.y) - floats::float_of(q.y);
    let z = floats::float_of(p.z) - floats::float_of(q.z);
    root::distance(x, y, z)
}

// The cost of a point that is reached from another.
#[tactic(auto, unfolding(crate::specs::Costs::cost_by))]
pub fn cost_by(walked: u64, from: Feet, to: Feet) -> u64
    ensures { result ≡ cost_by walked from to }
{
    let by = apart(from, to);
    floats::bits_of(floats::float_of(walked) + by)
}

// The estimate of a point of a cost.
#[tactic(auto, unfolding(crate::specs::Costs::estimate_by))]
pub fn estimate(goal: Feet, cost: u64, to: Feet) -> u64
    ensures { result ≡ estimate_by goal cost to }
{
    let left = apart(to, goal);
    floats::bits_of(floats::float_of(cost) + 1.5 * left)
}

// Whether a new cost re-parents a node of an old one.
#[tactic(auto, unfolding(crate::specs::Costs::cheaper))]
pub fn cheaper(new: u64, old: u64) -> bool
    ensures { result ≡ cheaper new old }
{
    floats::float_of(new) + floats::E < floats::float_of(old)
}

// The entry of a node that is pushed.
pub fn pushed_as(estimate: u64, order: u64) -> Entry
    ensures { result ≡ pushed_as estimate order }
{
    Entry {
        estimate,
        order,
        waiting: 1,
    }
}

// The entry of a node that is pushed again. One that does not wait has no entry to keep: only rooms that another hand changed have such an open node.
#[tactic(auto, unfolding(crate::specs::Costs::lowered))]
pub fn lowered(e: u64, old: Entry, order: u64) -> Entry
    ensures { result ≡ lowered e old order }
{
    let lower = floats::float_of(e) < floats::float_of(old.estimate);
    if (old.waiting != 1) | lower {
        pushed_as(e, order)
    } else {
        pushed_as(old.estimate, old.order)
    }
}
