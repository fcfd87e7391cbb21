// Little-endian fields of byte tables (01, Tables): reads at an offset, total. Where a field does not fit, a read gives 0. The writes are the crate
// `stores`; the definitions and the laws of both stand here.
#![tactic(auto)]

ghost use Rattle.std.specs.Prelude.{◌≡◌, ◌+◌, ◌<◌, ◌≤◌, leb, length, take, drop, MatchOption};
ghost use Rattle.fields.specs.Little.{field, signed_field, float_field};

// Whether so many bytes at an offset lie within a table of n bytes.
pub fn fits(n: usize, at: usize, bytes: usize) -> bool
    ensures { result ≡ leb (at + bytes) n }
{
    (bytes <= n) && (at <= n - bytes)
}

// The N bytes at an offset, where the table has them. They are cut out first: the compiler sees that such a part has N bytes, and no second test is left.
fn bytes_at<const N: usize>(s: &[u8], at: usize) -> Option<&[u8; N]>
    ensures { MatchOption result (length s.now < at + N) (λ b. (at + N ≤ length s.now) × (b.now ≡ take N (drop at s.now))) }
{
    if !fits(s.len(), at, N) {
        return None;
    }
    s[at..at + N].first_chunk()
}

// The u32 at an offset.
pub fn u32_at(s: &[u8], at: usize) -> u32
    ensures { result ≡ field 4 s.now at }
{
    match bytes_at(s, at) {
        Some(bytes) => u32::from_le_bytes(*bytes),
        None => 0,
    }
}

// The u64 at an offset.
pub fn u64_at(s: &[u8], at: usize) -> u64
    ensures { result ≡ field 8 s.now at }
{
    match bytes_at(s, at) {
        Some(bytes) => u64::from_le_bytes(*bytes),
        None => 0,
    }
}

// The f64 at an offset: 0.0 where it does not fit, and every NaN pattern the one NaN.
#[tactic(auto, unfolding(crate::specs::Little::float_field))]
pub fn f64_at(s: &[u8], at: usize) -> f64
    ensures { result ≡ float_field s.now at }
{
    floats::float_of(u64_at(s, at))
}

// The i32 at an offset: 32 bits in two's complement.
#[tactic(auto, unfolding(crate::specs::Little::signed_field))]
pub fn i32_at(s: &[u8], at: usize) -> i32
    ensures { result ≡ signed_field s.now at }
{
    u32_at(s, at).cast_signed()
}
