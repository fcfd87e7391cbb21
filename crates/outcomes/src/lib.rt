// What a search answers (01, "Numbers given back"): without a search, or where it found no list. How a list is told is the crate `conclusion`.
#![tactic(auto)]

ghost use Rattle.std.specs.Prelude.{◌≡◌};
ghost use Rattle.outcomes.specs.declared.Refusal.TheVariants.{Judged};
ghost use Rattle.outcomes.specs.Outcomes.{outcome_number, unsearched, counts_of, end_quiet, answer_of};

use rooms::{Counts, Label};

// 01's outcomes of a search, 0 to 5.
#[derive(Clone, Copy)]
pub enum Outcome {
    Found,
    Unreachable,
    BudgetExceeded,
    BadWorld,
    TooLarge,
    NoRoom,
}

// The outcome, how many points the list has that was written, and how many nodes were retained and closed: all 0 where no search began.
#[derive(Clone, Copy)]
pub struct Answer {
    pub outcome: Outcome,
    pub count: usize,
    pub retained: usize,
    pub closed: u64,
}

// What one expansion comes to: nothing waits; the search goes on; the list ends at a node; or by a connector from there, with its label.
#[derive(Clone, Copy)]
pub enum Turn {
    Rest(Counts),
    Going(Counts),
    At(Counts, usize),
    By(Counts, usize, Label),
}

// What a call of a search in slices comes to where it was not refused (02, No. 10): still searching, with the counts; or its end: the outcome, how many points
// the list has that was written, and the counts. Such a call answers Result<Slice, Refusal>.
#[derive(Clone, Copy)]
pub enum Slice {
    Searching(Counts),
    Ended(Outcome, usize, Counts),
}

// Why such a call was refused: a refusal of 01's; or 12 BadProgress.
#[derive(Clone, Copy)]
pub enum Refusal {
    Judged(Outcome),
    BadProgress,
}

impl From<Outcome> for Refusal {
    ghost from_gives = { λ outcome refusal. refusal ≡ Judged outcome };

    fn from(outcome: Outcome) -> Refusal {
        Refusal::Judged(outcome)
    }
}

// 01's number of an outcome.
impl From<Outcome> for u64 {
    ghost from_gives = { λ outcome number. number ≡ outcome_number outcome };

    fn from(outcome: Outcome) -> u64 {
        match outcome {
            Outcome::Found => 0,
            Outcome::Unreachable => 1,
            Outcome::BudgetExceeded => 2,
            Outcome::BadWorld => 3,
            Outcome::TooLarge => 4,
            Outcome::NoRoom => 5,
        }
    }
}

// The answer where no search began.
pub fn without_search(outcome: Outcome) -> Answer
    ensures { result ≡ unsearched outcome }
{
    Answer {
        outcome,
        count: 0,
        retained: 0,
        closed: 0,
    }
}

// The answer of a search that found no list: nothing waits any more.
pub fn verdict(c: Counts) -> Answer
    ensures { result ≡ answer_of c (end_quiet c.dropped) }
{
    let outcome = if c.dropped == 0 {
        Outcome::Unreachable
    } else {
        Outcome::BudgetExceeded
    };
    Answer {
        outcome,
        count: 0,
        retained: c.retained,
        closed: c.closed,
    }
}

// The counts that an expansion ends with.
pub fn counts_of(turn: Turn) -> Counts
    ensures { result ≡ counts_of turn }
{
    match turn {
        Turn::Rest(c) | Turn::Going(c) => c,
        Turn::At(c, _) => c,
        Turn::By(c, _, _) => c,
    }
}
