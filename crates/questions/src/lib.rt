// What is judged before a question about a world is answered (01, Modules 5: "3; `valid_request` (else no); 4, the budget not read"): once, for the
// walk-back and for one edge. A search also judges its budget and its rooms, which is `refusals`.
#![tactic(auto)]

ghost use Rattle.std.specs.Prelude.{◌≡◌};
ghost use Rattle.questions.specs.Questions.{question};

use world::Query;

// What keeps a question from its answer: 3 BadWorld, an invalid request, or 4 TooLarge.
#[derive(Clone, Copy)]
pub enum Judgement {
    BadWorld,
    Invalid,
    TooLarge,
}

// The first of them that holds; where none does, the question is answered.
pub fn judge(query: Query) -> Result<(), Judgement>
    ensures { let t = query.entry in result ≡ question t.world.window t.world.cells.now t.world.shapes.now t.world.boxes.now t.request t.body }
{
    if tables::bad_world(query.world) {
        return Err(Judgement::BadWorld);
    }
    if !request::valid_request(query.request, query.body) {
        return Err(Judgement::Invalid);
    }
    if request::sizes_too_large(query.request, query.body) {
        return Err(Judgement::TooLarge);
    }
    Ok(())
}
