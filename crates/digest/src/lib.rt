// The digest of answers (oracle/README.md, `store`), and the row of words that numbers are made of: for the programs of the gate.
#![tactic(auto)]

ghost use Rattle.std.specs.Prelude.{◌≡◌};
ghost use Rattle.std.specs.Float.{binary64};
ghost use Rattle.std.specs.Float.Ieee.{to_bits};
ghost use Rattle.digest.specs.Digest.{stirred, with_number};

use std::num::wrapping_add_u64;

// The word after w in a row that holds every word but 0 (Marsaglia's xorshift of 64 bits).
pub fn stirred(w: u64) -> u64
    ensures { result ≡ stirred w }
{
    let a = w ^ (w << 13);
    let b = a ^ (a >> 7);
    b ^ (b << 17)
}

// The digest of the answers so far: one that has lost a bit of an answer, or its place in the row, comes out otherwise.
#[derive(Clone, Copy)]
pub struct Digest {
    pub value: u64,
}

impl Digest {
    // Of no answers.
    pub fn new() -> Digest
        ensures { result.value ≡ 0 }
    {
        Digest { value: 0 }
    }

    // One more answer.
    pub fn with(self, answer: u64) -> Digest
        ensures { result.value ≡ with_number self.value answer }
    {
        let value = stirred(wrapping_add_u64(self.value, answer ^ 0x9e37_79b9_7f4a_7c15));
        Digest { value }
    }

    // One more answer that is a float, by its bits.
    pub fn with_float(self, x: f64) -> Digest
        ensures { result.value ≡ with_number self.value (to_bits binary64 x) }
    {
        self.with(floats::bits_of(x))
    }
}
