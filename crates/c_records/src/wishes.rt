// A mob's policy (01, Policy) as one number: a bit for each wish, and one, of weight 128, for a body in water.
ghost use Rattle.std.specs.Prelude.{◌≡◌};
ghost use Rattle.c_records.specs.Records.{policy_in};

use policy::{WalkPolicy, has_bit};

#[tactic(auto, unfolding(crate::specs::Records::policy_in))]
pub(crate) fn policy_in(bits: u64, jump_height: f64) -> WalkPolicy
    ensures { result ≡ policy_in bits jump_height }
{
    WalkPolicy {
        avoid_water: has_bit(bits, 1),
        avoid_damage_blocks: has_bit(bits, 2),
        can_jump: has_bit(bits, 4),
        jump_height,
        can_pass_doors: has_bit(bits, 8),
        can_open_doors: has_bit(bits, 16),
        can_open_iron_doors: has_bit(bits, 32),
        door_breaker: has_bit(bits, 64),
    }
}
