// Little-endian fields of byte tables (01, Tables): writes at an offset, total. Where a field does not fit, a write changes nothing. The definitions
// are those of `fields`, which reads. An i32 or an f64 is written as its bits.
#![tactic(auto)]

ghost use Rattle.std.specs.Prelude.{◌≡◌, cond};
ghost use Rattle.std.proofs.lemmas.List.Edits.{sets};
ghost use Rattle.std.specs.Int.{w32};
ghost use Rattle.std.proofs.Common.{of_z};
ghost use Rattle.fields.specs.Little.{fits_at, with_field};

// The bytes at an offset set to these, where they fit.
fn put<const N: usize>(s: &mut [u8], at: usize, bytes: [u8; N])
    ensures { s.new ≡ cond (fits_at N s.old at) (sets s.old at bytes.entry) s.old }
{
    if fields::fits(s.len(), at, N) {
        s[at..at + N].copy_from_slice(&bytes);
    }
}

// The u32 at an offset set to v.
#[tactic(auto, using(crate::proofs::Low::low_bytes), unfolding(fields::specs::Little::with_field))]
pub fn put_u32(s: &mut [u8], at: usize, v: u32)
    ensures { s.new ≡ with_field 4 s.old at v }
{
    put(s, at, u32::to_le_bytes(v));
}

// The u64 at an offset set to v.
#[tactic(auto, using(crate::proofs::Low::low_bytes), unfolding(fields::specs::Little::with_field))]
pub fn put_u64(s: &mut [u8], at: usize, v: u64)
    ensures { s.new ≡ with_field 8 s.old at v }
{
    put(s, at, u64::to_le_bytes(v));
}

// The 32 bits of an i32, in two's complement.
pub fn signed_bits(x: i32) -> u32
    ensures { result ≡ of_z w32 x }
{
    x.cast_unsigned()
}
