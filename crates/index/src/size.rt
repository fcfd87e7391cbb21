// Whether an index room is of a wrong size (02, No. 7: "u32 slots, a power of two and at least twice the budget").
ghost use Rattle.std.specs.Prelude.{◌≡◌};
ghost use Rattle.index.specs.Size.{wrong_size};

// A room of so many bytes, for a search with such a budget. Twice the budget might not fit a word, so the slots are halved.
pub fn wrong_size(bytes: usize, budget: u64) -> bool
    ensures { result ≡ wrong_size bytes budget }
{
    let n = bytes / 4;
    !((bytes % 4 == 0) & n.is_power_of_two() & (budget <= (n / 2) as u64))
}
