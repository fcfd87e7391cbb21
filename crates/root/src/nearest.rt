// The nearest f64 to the root of a number above 0 (01, Numbers), worked out in whole numbers:
//
// 1. x is m * 2^e, in units of 2^-2148, with m of 53 binary digits (`scaled`).
// 2. The exponent is made even, and 54 zeros are put after m's digits.
// 3. The whole root of that has 54 digits (`whole_root`).
// 4. Half of it, rounded, are the root's 53 digits, and half the exponent is its exponent.
//
// No root lies half way between two f64: in step 3 it would be whole and odd, and so would be its
// square, which ends in zeros.
ghost use Rattle.std.specs.Prelude.{◌≡◌, ◌*◌, ◌^◌, ◌<◌, T};
ghost use Rattle.std.specs.Float.{binary64};
ghost use Rattle.std.specs.Float.Ieee.{of_bits};
ghost use Rattle.std.specs.Float.Ieee.Positive.{positive};
ghost use Rattle.root.specs.Method.{Scaled, root_of};

use crate::whole;

// The weight of the exponent's field in a bit pattern, and of the digit that a pattern leaves out: 2^52.
const LEAD: u64 = 0x10_0000_0000_0000;

// m * 2^e, in units of 2^-2148.
#[derive(Clone, Copy)]
struct Parts {
    m: u64,
    e: u64,
}

// The nearest f64 to the root of an x above 0.
pub(crate) fn nearest_root(x: f64) -> f64
    requires { T (positive x) }
    ensures { result ≡ root_of x }
{
    let b = f64::to_bits(x);
    let s = scaled(b);
    let m = s.m;
    let e = s.e;
    let r = whole::whole_root(m << (e % 2));
    let q = (r + 1) / 2;
    let k = (e - 52) / 2;
    let pattern = k * LEAD + q;
    f64::from_bits(pattern)
}

// The number above 0 with the pattern b. A subnormal one, whose exponent's field is 0, is shifted
// until it has 53 digits.
fn scaled(b: u64) -> Parts
    requires { (0 < b) × (b < 2047 * 2 ^ 52) }
    ensures { Scaled (of_bits binary64 b) result.m result.e }
{
    let field = b / LEAD;
    let digits = b % LEAD;
    if field == 0 {
        let z = u64::leading_zeros(digits) as u64 - 11;
        return Parts {
            m: digits << z,
            e: 1074 - z,
        };
    }
    Parts {
        m: digits + LEAD,
        e: field + 1073,
    }
}
