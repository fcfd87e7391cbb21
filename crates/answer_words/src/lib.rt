// The words of a number that a call answers with, in a slice that the caller lends, so that no caller writes the table again. They are 01's names, the
// reasons of 02, No. 3, and what a search in slices is told by No. 10, in small letters.
#![tactic(auto)]

ghost use Rattle.std.specs.Prelude.{◌≡◌, length, drop};
ghost use Rattle.answer_words.specs.Table.{words_of, words_in, answer_table, at_start};

// 01's names, and that of 02, No. 10; then the other rows of the table.
#[tactic(auto, unfolding(crate::specs::Table::words_of))]
fn words(number: u64) -> &'static [u8]
    ensures { result.now ≡ words_of number }
{
    match number {
        0 => b"found",
        1 => b"unreachable",
        2 => b"budget exceeded",
        3 => b"bad world",
        4 => b"too large",
        5 => b"no room",
        6 => b"endless jump",
        7 => b"bad scene",
        8 => b"bad table",
        9 => b"bad number",
        12 => b"bad progress",
        _ => reason(number),
    }
}

// Why a search is not at its end, why there is no edge, why a list is no route, and an edge, by its movement. Every other number has no words.
fn reason(number: u64) -> &'static [u8]
    ensures { result.now ≡ words_in (drop 11 answer_table) number }
{
    match number {
        100 => b"still searching",
        101 => b"too high",
        102 => b"too deep",
        103 => b"target out of range",
        104 => b"raised point out of range",
        105 => b"target not standable",
        106 => b"lift blocked",
        107 => b"crossing blocked",
        108 => b"settle blocked",
        109 => b"segment unsupported",
        111 => b"invalid request",
        112 => b"bad list",
        113 => b"goal out of range",
        114 => b"start not standable",
        115 => b"goal not standable",
        116 => b"wrong start",
        117 => b"not a graph step",
        118 => b"wrong movement or lift",
        119 => b"wrong end",
        130 => b"walk",
        131 => b"step",
        132 => b"jump",
        133 => b"drop",
        _ => b"",
    }
}

// How many bytes a number's words have, 0 where it has none; and the words in the first bytes of `out`, where they fit.
#[tactic(auto, unfolding(crate::specs::Table::at_start))]
pub fn put_words(number: u64, out: &mut [u8]) -> u64
    ensures value { result ≡ length (words_of number) }
    ensures out_after { out.new ≡ at_start (words_of number) out.old }
{
    let words = words(number);
    let size = words.len();
    if size <= out.len() {
        // byte by byte: `copy_from_slice`, of words that a `match` chose, is a call of `memmove`, which nothing else in the library for C asks for
        for k in 0..size {
            out[k] = words[k];
        }
    }
    size as u64
}
