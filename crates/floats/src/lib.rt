// Floats (01, Numbers): bit patterns, the smaller, the larger, the size, E. Every function is total, NaN included.
#![tactic(auto)]

ghost use Rattle.std.specs.Prelude.{◌≡◌};
ghost use Rattle.std.specs.Float.{binary64};
ghost use Rattle.std.specs.Float.Ieee.{of_bits, to_bits};
ghost use Rattle.std.specs.Float.Ieee.Scale.{finite};
ghost use Rattle.floats.specs.Floats.{smaller, larger, absolute};

// 01: "E is 1.0e-7 as f64".
pub const E: f64 = 1.0e-7;

// The float of a bit pattern: every NaN pattern is the one NaN.
#[tactic(auto, using(crate::proofs::NoNumber::nan_read, crate::specs::Patterns::number_pattern))]
pub fn float_of(n: u64) -> f64
    ensures { result ≡ of_bits binary64 n }
{
    std::num::f64_from_bits_with_nan(n)
}

// The bit pattern of a float: of a NaN the one that IEEE calls the default.
#[tactic(auto, using(crate::proofs::NoNumber::nan_written))]
pub fn bits_of(x: f64) -> u64
    ensures { result ≡ to_bits binary64 x }
{
    std::num::f64_to_bits_with_nan(x)
}

// The smaller of two: the second one where they are equal, and where one is a NaN. (`f64::min` gives the other one for a NaN, and says nothing of equal ones.)
#[tactic(auto, unfolding(crate::specs::Floats::smaller))]
pub fn min(a: f64, b: f64) -> f64
    ensures { result ≡ smaller a b }
{
    if a < b { a } else { b }
}

// The larger of two: the second one where they are equal, and where one is a NaN. (`f64::max` gives the other one for a NaN, and says nothing of equal ones.)
#[tactic(auto, unfolding(crate::specs::Floats::larger))]
pub fn max(a: f64, b: f64) -> f64
    ensures { result ≡ larger a b }
{
    if b < a { a } else { b }
}

// The size of a number. A zero and a NaN stay as they are. (`f64::abs` makes 0.0 of -0.0.)
#[tactic(auto, unfolding(crate::specs::Floats::absolute))]
pub fn abs(x: f64) -> f64
    ensures { result ≡ absolute x }
{
    if x < 0.0 { -x } else { x }
}

// Whether a float is a number: neither an infinity nor a NaN.
#[tactic(auto, using(crate::specs::Laws::is_finite, crate::proofs::NoNumber::infinity_no_number))]
pub fn finite(x: f64) -> bool
    ensures { result ≡ finite x }
{
    x.is_finite()
}
