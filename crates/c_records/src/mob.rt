// What a mob's search is asked (01, Policy), beside the tables: `ends` is the start and the goal, two points. A record that is shorter than its struct puts
// both of them nowhere, which makes an invalid request.
ghost use Rattle.std.specs.Prelude.{◌≡◌};
ghost use Rattle.c_records.specs.Asked.{mob_in};

use crate::whole::{all_whole, end_in};
use crate::wishes::policy_in;
pub use mob_request::Mob;
use policy::has_bit;
use scene_records::{body_at, window_at};

#[tactic(auto, unfolding(crate::specs::Asked::mob_in))]
pub fn mob_in(policy: u64, jump_height: f64, window: &[u8], ends: &[u8], body: &[u8]) -> Mob
    ensures { result ≡ mob_in policy jump_height window.now ends.now body.now }
{
    let whole = all_whole(window, ends, 48, body);
    Mob {
        policy: policy_in(policy, jump_height),
        in_water: has_bit(policy, 128),
        window: window_at(window, 0),
        start: end_in(whole, ends, 0),
        goal: end_in(whole, ends, 24),
        body: body_at(body, 0),
    }
}
