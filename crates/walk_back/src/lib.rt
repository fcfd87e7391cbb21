// The walk-back (01, Modules 5; 02, No. 3): whether a list of waypoint records is a route, and where it is none the first reason. It searches nothing and reads
// no rooms.
//
// `rooms` reads a record of the list, `listed` compares it, `pairs` has whether one pair is the graph's and why not, and here the list is gone through once.
#![tactic(auto)]

ghost use Rattle.std.specs.Prelude.{◌≡◌};
ghost use Rattle.world.specs.Space.{space_of};
ghost use Rattle.walk_back.specs.declared.Denied.TheVariants.{Fault as No};
ghost use Rattle.walk_back.specs.WalkBack.{walked_by, going_on, walked_list, denied_by, walked};

use pairs::PairFault;
use questions::Judgement;
use world::Query;

// Why a list is no route. With a pair's reason goes its later point's place in the list, counted from 0.
#[derive(Clone, Copy)]
pub enum Fault {
    InvalidRequest,
    BadList,
    GoalOutOfRange,
    StartNotStandable,
    GoalNotStandable,
    WrongStart,
    Pair(PairFault, usize),
    WrongEnd,
}

// Why a walk-back does not say yes: a refusal of 01, or the list is no route and why.
#[derive(Clone, Copy)]
pub enum Denied {
    BadWorld,
    TooLarge,
    Fault(Fault),
}

impl From<Fault> for Denied {
    ghost from_gives = { λ fault d. d ≡ No fault };

    fn from(fault: Fault) -> Denied {
        Denied::Fault(fault)
    }
}

// An invalid request is no refusal here: its list is then no route.
impl From<Judgement> for Denied {
    ghost from_gives = { λ j d. d ≡ denied_by j };

    fn from(j: Judgement) -> Denied {
        match j {
            Judgement::BadWorld => Denied::BadWorld,
            Judgement::Invalid => Denied::Fault(Fault::InvalidRequest),
            Judgement::TooLarge => Denied::TooLarge,
        }
    }
}

// How the records behind the first lead from it to the goal, or where they do not.
fn leads(query: Query, list: &[u8]) -> Result<(), Fault>
    ensures { let t = query.entry in result ≡ walked_by (space_of t.world) t.request t.body (going_on (space_of t.world) t.request t.body list.now) }
{
    let n = list.len() / 48;
    let mut from = rooms::get_waypoint(list, 0).feet;
    for k in 1..n {
        let v = rooms::get_waypoint(list, k);
        let last = k + 1 == n;
        if !pairs::is_joined(query, from, v, last) {
            let fault = pairs::fault_of(query, from, v.feet, last);
            return Err(Fault::Pair(fault, k));
        }
        from = v.feet;
    }
    if equal_points::same_point(words::feet_of(query.request.goal), from) {
        return Ok(());
    }
    Err(Fault::WrongEnd)
}

// What is answered of a list once nothing refuses: yes, or the first reason.
#[tactic(auto, unfolding(crate::specs::WalkBack::walked_list))]
fn walk_list(query: Query, list: &[u8]) -> Result<(), Fault>
    ensures { let t = query.entry in result ≡ walked_list (space_of t.world) t.request t.body list.now }
{
    let start = query.request.start;
    let goal = query.request.goal;
    // a yes or no has no `ok_or`: the tests return their reasons by `if`
    if listed::is_bad(list) {
        return Err(Fault::BadList);
    }
    if !places::in_range(query.request, goal) {
        return Err(Fault::GoalOutOfRange);
    }
    if !places::standable(query.world, query.body, start) {
        return Err(Fault::StartNotStandable);
    }
    if !places::standable(query.world, query.body, goal) {
        return Err(Fault::GoalNotStandable);
    }
    if !listed::begins_at(start, list) {
        return Err(Fault::WrongStart);
    }
    leads(query, list)
}

// Whether a list is a route: 3, an invalid request, 4 without the budget, then yes or the first reason.
pub fn walk_back(query: Query, list: &[u8]) -> Result<(), Denied>
    ensures { let t = query.entry in result ≡ walked t.world.window t.world.cells.now t.world.perms.now t.world.shapes.now t.world.boxes.now t.request t.body list.now }
{
    questions::judge(query)?;
    walk_list(query, list)?;
    Ok(())
}
