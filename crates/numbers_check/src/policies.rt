// A policy, asked about every flag byte.
use digest::Digest;
use policy::{Flags, Passage, WalkPolicy, has_bit};

// The policy of a number: bit k is the k-th yes or no from `avoid_water` on.
fn numbered(number: u64) -> WalkPolicy {
    WalkPolicy {
        avoid_water: has_bit(number, 1),
        avoid_damage_blocks: has_bit(number, 2),
        can_jump: has_bit(number, 4),
        jump_height: 0.0,
        can_pass_doors: has_bit(number, 8),
        can_open_doors: has_bit(number, 16),
        can_open_iron_doors: has_bit(number, 32),
        door_breaker: has_bit(number, 64),
    }
}

// The number that the stored answers have for a passage. No call gives it, so `policy` has no `From` for it.
fn passage_number(passage: Passage) -> u64 {
    match passage {
        Passage::Shape => 0,
        Passage::Through => 1,
        Passage::Wall => 2,
    }
}

// How a combination, which is a policy's number, and in water from 128 on, meets each flag byte, and its permission byte.
pub(crate) fn with_policy(d: Digest, combination: u64, flags: &[u8; 256]) -> Digest {
    let policy = numbered(combination);
    let mut table = [0u8; 256];
    // Both tables have 256 bytes, so there is no bad table.
    let _ = policy.fill_permissions(has_bit(combination, 128), flags, &mut table);
    let mut sum = d;
    for (bits, permission) in flags.iter().zip(&table) {
        let passage = policy.door_passage(Flags { bits: *bits });
        sum = sum
            .with(passage_number(passage))
            .with(u64::from(*permission));
    }
    sum
}
