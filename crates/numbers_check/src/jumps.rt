// The jump of a record.
use digest::Digest;

// The height's bits, or 01's number 6 where the jump has no end.
pub(crate) fn with_jump(d: Digest, record: &[u8]) -> Digest {
    let power = std::num::f32_from_bits_with_nan(fields::u32_at(record, 56));
    let gravity = fields::f64_at(record, 64);
    match jump::jump_apex(power, gravity) {
        Some(height) => d.with_float(height),
        None => d.with(6),
    }
}
