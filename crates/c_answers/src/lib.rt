// What a call from another language is answered: of a search its number (01, "Numbers given back"), and a record of 32 bytes in a slice that the caller lends;
// of one in slices its number, and a record of 48 bytes (02, No. 10); the number of an edge check; and of a walk-back its number, and the place that goes with a pair's reason (02, No. 3). `walk_c` has the calls.
#![tactic(auto)]

ghost use Rattle.std.specs.Prelude.{◌≡◌};
ghost use Rattle.moves.specs.Moves.{check_number};
ghost use Rattle.outcomes.specs.Outcomes.{outcome_number, path_number};
ghost use Rattle.outcomes.specs.Ticks.{tick_number};
ghost use Rattle.walk_back.specs.WalkBack.{fault_number, fault_places, walked_number, walked_places};
ghost use Rattle.c_answers.specs.Answers.{answer_written, path_written, progress_written, tick_written, place_written};

use moves::{Reason, Waypoint};
use outcomes::{Answer, Refusal, Slice};
use policy::BadTable;
use rooms::Counts;
use walk_back::{Denied, Fault};

// The outcome's number; and outcome, count, retained and closed in the first 32 bytes of `answer`, where they fit.
#[tactic(auto, unfolding(crate::specs::Answers::answer_written))]
pub fn put_answer(a: Answer, answer: &mut [u8]) -> u64
    ensures value { result ≡ outcome_number a.outcome }
    ensures answer_after { answer.new ≡ answer_written a answer.old }
{
    let number = u64::from(a.outcome);
    let words = [number, a.count as u64, a.retained as u64, a.closed];
    records::put_record(answer, 0, &words);
    number
}

// The same of a mob's search; 8 BadTable writes nothing.
pub fn put_path(p: Result<Answer, BadTable>, answer: &mut [u8]) -> u64
    ensures value { result ≡ path_number p }
    ensures answer_after { answer.new ≡ path_written p answer.old }
{
    match p {
        Ok(a) => put_answer(a, answer),
        Err(_) => 8,
    }
}

// The progress record of a search in slices, 48 bytes, where it fits: a number, the list's count, and the counts.
#[tactic(auto, unfolding(crate::specs::Answers::progress_written))]
fn put_progress(number: u64, count: u64, c: Counts, progress: &mut [u8]) -> u64
    ensures value { result ≡ number }
    ensures progress_after { progress.new ≡ progress_written number count c progress.old }
{
    let words = [
        number,
        count,
        c.retained as u64,
        c.closed,
        c.pushed,
        c.dropped,
    ];
    records::put_record(progress, 0, &words);
    number
}

// The number of a search in slices, and its progress record. A refusal writes none: a caller that keeps its counts in the record keeps its search.
pub fn put_tick(t: Result<Slice, Refusal>, progress: &mut [u8]) -> u64
    ensures value { result ≡ tick_number t }
    ensures progress_after { progress.new ≡ tick_written t progress.old }
{
    match t {
        Err(Refusal::Judged(outcome)) => u64::from(outcome),
        Err(Refusal::BadProgress) => 12,
        Ok(Slice::Searching(c)) => put_progress(100, 0, c, progress),
        Ok(Slice::Ended(outcome, count, c)) => {
            put_progress(u64::from(outcome), count as u64, c, progress)
        }
    }
}

// The number of an edge check: 130 Walk, 131 Step, 132 Jump, 133 Drop, or 101 to 109, the first reason why there is no edge. (No From: the types are those of
// other crates.)
pub fn edge_number(a: Result<Waypoint, Reason>) -> u64
    ensures { result ≡ check_number a }
{
    match a {
        Ok(w) => 130 + u64::from(w.movement),
        Err(why) => u64::from(why),
    }
}

// The number of the reason why a list is no route; with a pair's reason its later point's place in the first 8 bytes of `place`, where they fit. By hand and not
// by From, since the place goes with the number.
fn put_fault(fault: Fault, place: &mut [u8]) -> u64
    ensures value { result ≡ fault_number fault }
    ensures place_after { place.new ≡ place_written (fault_places fault) place.old }
{
    match fault {
        Fault::InvalidRequest => 111,
        Fault::BadList => 112,
        Fault::GoalOutOfRange => 113,
        Fault::StartNotStandable => 114,
        Fault::GoalNotStandable => 115,
        Fault::WrongStart => 116,
        Fault::Pair(why, k) => {
            stores::put_u64(place, 0, k as u64);
            u64::from(why)
        }
        Fault::WrongEnd => 119,
    }
}

// The number of a walk-back's answer, and a place as above.
pub fn put_walked(a: Result<(), Denied>, place: &mut [u8]) -> u64
    ensures value { result ≡ walked_number a }
    ensures place_after { place.new ≡ place_written (walked_places a) place.old }
{
    match a {
        Ok(()) => 0,
        Err(Denied::Fault(fault)) => put_fault(fault, place),
        Err(Denied::BadWorld) => 3,
        Err(Denied::TooLarge) => 4,
    }
}
