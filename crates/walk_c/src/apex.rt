// The height of a jump (01, Policy).
ghost use Rattle.std.specs.Prelude.{◌≡◌};
ghost use Rattle.jump.specs.Jump.{jump_apex};
ghost use Rattle.walk_c.specs.Answers.{first_written};

use crate::float::put_float;

// 0, and the height in the first 8 bytes of `height`; or 6 EndlessJump, and nothing is written.
#[unsafe(no_mangle)]
pub extern "C" fn walkprint_jump_apex(power: f32, gravity: f64, height: &mut [u8]) -> u64
    ensures value { result ≡ (jump_apex power gravity).0 }
    ensures height_after { height.new ≡ first_written (jump_apex power gravity).1 height.old }
{
    put_float(jump::jump_apex(power, gravity), 6, height)
}
