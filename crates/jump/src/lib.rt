// The height of a jump, tick by tick (01, Policy: "Only the jump apex, a call of its own, gives 6").
#![tactic(auto)]

ghost use Rattle.std.specs.Prelude.{◌≡◌};
ghost use Rattle.jump.specs.Answers.{apex_answer};
ghost use Rattle.jump.specs.Jump.{jump_apex};

// What is left of a vertical velocity after a tick.
const LIVING_VERTICAL_DRAG: f64 = 0.98;

// A jump that these many ticks don't bring to rest is refused.
const TICKS: u32 = 65536;

// The height that a jump from the ground gains, which starts with the velocity `power`; none where it
// does not come to rest (6). A power or a gravity that is NaN or not above 0 gains nothing.
pub fn jump_apex(power: f32, gravity: f64) -> Option<f64>
    ensures { apex_answer result ≡ jump_apex power gravity }
{
    let mut height: f64 = 0.0;
    let mut velocity = std::num::f32_to_f64_with_nan(power);
    // It is looked at before each tick, and once more after the last.
    for _ in 0..=TICKS {
        let rises = (velocity > 0.0) & (gravity > 0.0);
        if !rises {
            return Some(height);
        }
        height += velocity;
        velocity = (velocity - gravity) * LIVING_VERTICAL_DRAG;
    }
    None
}
