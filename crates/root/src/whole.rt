// The whole part of a square root, by shift and subtract, the way of the logic design course (for the
// root of document 01, section Numbers). docs/ROOT.md does it on paper, for the root of 2.
//
// The number's binary digits are taken from the left in pairs, and each pair gives one more digit of
// the root. (On paper an odd number of digits first gets a 0 in front; here there are always 108.)
//
// 1. `rest` is the digits taken so far, read as one number, less root * root. Root and rest begin at
//    0. The next pair is brought down: written behind the rest.
// 2. `trial` is what a digit 1 takes off the rest: 4 * root + 1, the root with the digits 01 behind it.
// 3. If the trial is at most the rest, it is taken off, and the root's next digit is 1. Else that
//    digit is 0.
//
// Why 4 * root + 1: call the root so far r, and the digits taken n = r * r + rest. With the next pair
// they are 4 * n + pair, which is (2 r) * (2 r) and 4 * rest + pair more: the rest with the pair behind
// it. So a 0, which makes the root 2 r, takes nothing off. A 1 makes it 2 r + 1, whose square is
// 4 r r + 4 r + 1: it takes 4 r + 1 off.
//
// After each turn
//     root * root + rest are the digits taken, and
//     rest is at most 2 * root.
// For the second: where the trial 4 r + 1 is too large, the rest is at most 4 r, twice the root 2 r.
// Where it is taken off, the rest was at most 4 * (2 r) + 3 before, so at most 4 r + 2 are left, twice
// the root 2 r + 1.
//
// So root * root is not too large, and (root + 1) * (root + 1) is: that is root * root + 2 * root + 1,
// and the rest is smaller than 2 * root + 1. When all digits are taken, root is the whole part.
ghost use Rattle.std.specs.Prelude.{◌*◌, ◌^◌, ◌<◌};
ghost use Rattle.root.specs.Method.{Whole};

// The whole part of the root of m * 2^54: of m's 54 digits with 54 zeros behind them, in 54 turns.
// `number` has the digits that are not taken yet at the left end of its 64 places; each shift to the
// left brings two zeros in at the right. Root and rest lose none by their shifts: they stay below 2^54
// and 2^55.
pub(crate) fn whole_root(m: u64) -> u64
    requires { m < 2 ^ 54 }
    ensures { Whole (m * 2 ^ 54) result }
{
    let mut number = m << 10;
    let mut rest: u64 = 0;
    let mut root: u64 = 0;
    for _ in 0..54u64 {
        rest = (rest << 2) + (number >> 62);
        number = number << 2;
        let trial = (root << 2) + 1;
        root = root << 1;
        if trial <= rest {
            rest -= trial;
            root += 1;
        }
    }
    root
}
