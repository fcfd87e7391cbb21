// The words of a number that a call answers with.
ghost use Rattle.std.specs.Prelude.{◌≡◌, length};
ghost use Rattle.answer_words.specs.Table.{words_of, at_start};

// How many bytes the words of a number have, 0 where it has none; and the words in the first bytes of `word`, where they fit.
#[unsafe(no_mangle)]
pub extern "C" fn walkprint_word(number: u64, word: &mut [u8]) -> u64
    ensures value { result ≡ length (words_of number) }
    ensures word_after { word.new ≡ at_start (words_of number) word.old }
{
    answer_words::put_words(number, word)
}
