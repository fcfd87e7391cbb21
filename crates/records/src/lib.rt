// A record of words written in a table (01, "Tables, little-endian records"): all of it, or nothing where not all of it fits.
#![tactic(auto)]

ghost use Rattle.std.specs.Prelude.{◌≡◌};
ghost use Rattle.fields.specs.Records.{with_words};

// Record k of a table whose records are so many u64 each, set to these.
pub fn put_record(s: &mut [u8], k: usize, words: &[u64])
    ensures { s.new ≡ with_words s.old k words.now }
{
    let size = 8 * words.len();
    let inside = k < s.len().checked_div(size).unwrap_or(0);
    if inside {
        for (i, word) in words.iter().enumerate() {
            stores::put_u64(s, size * k + 8 * i, *word);
        }
    }
}
