// How a number that may be refused is told.
ghost use Rattle.std.specs.Prelude.{◌≡◌};
ghost use Rattle.walk_c.specs.Answers.{float_number, float_written};

// 0, and the number in the first 8 bytes of `to`, where they fit; or the refusal's number, and nothing is written.
pub(crate) fn put_float(x: Option<f64>, refusal: u64, to: &mut [u8]) -> u64
    ensures value { result ≡ float_number refusal x }
    ensures to_after { to.new ≡ float_written x to.old }
{
    let Some(x) = x else {
        return refusal;
    };
    stores::put_u64(to, 0, floats::bits_of(x));
    0
}
