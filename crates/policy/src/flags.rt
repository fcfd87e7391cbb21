// What is known of a block state, a bit for each fact (01: "The six flag bits are named once").
ghost use Rattle.std.specs.Prelude.{◌≡◌};
ghost use Rattle.policy.specs.Flags.{has};

// A flag byte. Its two highest bits are not read.
#[derive(Clone, Copy)]
pub struct Flags {
    pub bits: u8,
}

// Whether a number has the bit of a weight; of weight 0 there is none.
pub fn has_bit(bits: u64, weight: u64) -> bool
    ensures { result ≡ has weight bits }
{
    weight != 0 && bits / weight % 2 == 1
}

impl Flags {
    pub const WATER: u8 = 1;

    pub const DAMAGING: u8 = 2;

    // No rule of a search reads it.
    pub const GRASS: u8 = 4;
    // Any door half.
    pub const DOOR: u8 = 8;

    pub const IRON_DOOR: u8 = 16;
    // The half itself stands open.
    pub const OPEN: u8 = 32;

    // Whether the flag of this weight is set.
    pub(crate) fn has(self, flag: u8) -> bool
        ensures { result ≡ has flag self.bits }
    {
        has_bit(u64::from(self.bits), u64::from(flag))
    }
}
