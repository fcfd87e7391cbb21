// Numbers in digits, written into a lent buffer (01, "Scenes and walkprint"): bits in 16 hexadecimal digits, counts in decimal. Each is a field of a
// line, with the byte that ends it. A field has at most 21 bytes: where the buffer has fewer left it stays as it was, and so does the offset.
#![tactic(auto)]

ghost use Rattle.std.specs.Prelude.{◌≡◌, ◌+◌, ◌≤◌, ◌<◌, leb};
ghost use Rattle.digits.specs.Digits.{digit, digits, places, hex, decimal};
ghost use Rattle.digits.specs.Writing.{with_field, behind};

// 20 digits and the byte that ends them.
const ROOM: usize = 21;

// Whether a field has room from an offset on, in a buffer of this length.
fn has_room(length: usize, at: usize) -> bool
    ensures { result ≡ leb (at + 21) length }
{
    ROOM <= length && at <= length - ROOM
}

// A digit as a byte: 0 to 9, then a to f.
#[tactic(auto, using(crate::specs::Laws::low_digit, crate::specs::Laws::high_digit))]
fn digit_of(d: u64) -> u8
    requires { d < 16 }
    ensures { result ≡ digit d }
{
    if d < 10 {
        b'0' + d as u8
    } else {
        b'a' + (d - 10) as u8
    }
}

// The last `width` digits of a number, from an offset on, and the byte that ends them: written from the last one to the first. The answer is the
// offset behind them.
fn put_digits(out: &mut [u8], at: usize, base: u64, width: usize, v: u64, end: u8) -> usize
    requires { (1 < base) × (base ≤ 16) × (width ≤ 20) }
    ensures next { result ≡ behind (digits base width v) at out.old }
    ensures bytes { out.new ≡ with_field (digits base width v) end at out.old }
{
    if !has_room(out.len(), at) {
        return at;
    }
    out[at + width] = end;
    let mut rest = v;
    for k in (0..width).rev() {
        out[at + k] = digit_of(rest % base);
        rest /= base;
    }
    at + width + 1
}

// How many decimal digits a number has.
#[tactic(auto, using(crate::specs::Laws::places_by_power, crate::specs::Laws::places_from_one))]
fn places_of(v: u64) -> usize
    ensures { (result ≡ places v) × (result ≤ 20) }
{
    v.max(1).ilog10() as usize + 1
}

// 16 hexadecimal digits and the byte that ends the field. The answer is the offset behind it.
#[tactic(auto, unfolding(crate::specs::Digits::hex))]
pub fn put_hex(out: &mut [u8], at: usize, v: u64, end: u8) -> usize
    ensures next { result ≡ behind (hex v) at out.old }
    ensures bytes { out.new ≡ with_field (hex v) end at out.old }
{
    put_digits(out, at, 16, 16, v, end)
}

// A count in decimal and the byte that ends the field.
#[tactic(auto, unfolding(crate::specs::Digits::decimal))]
pub fn put_decimal(out: &mut [u8], at: usize, v: u64, end: u8) -> usize
    ensures next { result ≡ behind (decimal v) at out.old }
    ensures bytes { out.new ≡ with_field (decimal v) end at out.old }
{
    put_digits(out, at, 10, places_of(v), v, end)
}
