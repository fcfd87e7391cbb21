// The words of walkprint's lines (01, "Scenes and walkprint"): an outcome's, a movement's, and `refused`.
ghost use Rattle.std.specs.Prelude.{◌≡◌, ◌+◌, ◌≤◌, ◌<◌, length};
ghost use Rattle.digits.specs.Writing.{Field};
ghost use Rattle.report.specs.Lines.{outcome_word, movement_word};

const SPACE: u8 = 32;

pub(crate) const REFUSED: &[u8] = b"refused";

// An outcome's word, by its number.
#[tactic(auto, unfolding(crate::specs::Lines::outcome_word))]
pub(crate) fn outcome_word(number: u64) -> &'static [u8]
    requires { number < 3 }
    ensures is { result.now ≡ outcome_word number }
    ensures short { length result.now ≤ 20 }
{
    match number {
        0 => b"found",
        1 => b"unreachable",
        _ => b"budgetexceeded",
    }
}

// A movement's word, by its number.
#[tactic(auto, unfolding(crate::specs::Lines::movement_word))]
pub(crate) fn movement_word(movement: u64) -> &'static [u8]
    requires { movement ≤ 3 }
    ensures is { result.now ≡ movement_word movement }
    ensures short { length result.now ≤ 20 }
{
    match movement {
        0 => b"walk",
        1 => b"step",
        2 => b"jump",
        _ => b"drop",
    }
}

// A word and a space. The answer is the offset behind it.
pub(crate) fn put_word(out: &mut [u8], at: usize, word: &[u8]) -> usize
    requires { (at + 21 ≤ length out.old) × (length word.now ≤ 20) }
    ensures { Field out.old out.new at result word.now 32 }
{
    let end = at + word.len();
    out[at..end].copy_from_slice(word);
    out[end] = SPACE;
    end + 1
}
