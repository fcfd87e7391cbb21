// What one search may walk on and through, and the functions that make permission bytes of flags (01, Policy).
ghost use Rattle.std.specs.Prelude.{◌≡◌};
ghost use Rattle.policy.specs.Answers.{passage_number, filled_number};
ghost use Rattle.policy.specs.Doors.{door_passage};
ghost use Rattle.policy.specs.Permission.{permission, filled, permission_table};

use crate::doors::Passage;
use crate::flags::Flags;

// The bits of a permission byte.
const OCCUPIED: u8 = 1;

const SUPPORT: u8 = 2;

const COLLIDES: u8 = 4;

// The permission byte by how a state is met, where no flag is forbidden.
const SHAPED: u8 = OCCUPIED + SUPPORT + COLLIDES;

const CROSSED: u8 = OCCUPIED + SUPPORT;

const WALLED: u8 = SUPPORT + COLLIDES;

// What a mob may be in, stand on and go through.
#[derive(Clone, Copy)]
pub struct WalkPolicy {
    pub avoid_water: bool,
    pub avoid_damage_blocks: bool,
    pub can_jump: bool,
    // The lift of one jump: beside the yes or no and no Option of it, as 01 names both.
    pub jump_height: f64,
    pub can_pass_doors: bool,
    pub can_open_doors: bool,
    pub can_open_iron_doors: bool,
    pub door_breaker: bool,
}

// The refusal of tables of two lengths (01's 8).
#[derive(Clone, Copy)]
pub struct BadTable;

impl WalkPolicy {
    // How a state with these flags is met.
    pub fn door_passage(self, flags: Flags) -> Passage
        ensures { passage_number result ≡ door_passage self flags.bits }
    {
        if !flags.has(Flags::DOOR) {
            return Passage::Shape;
        }
        let mut crosses = self.can_open_doors;
        let mut passes = self.can_pass_doors;
        // A breaker alone tells open from closed and iron from wood.
        if self.door_breaker {
            let open = flags.has(Flags::OPEN);
            let iron = flags.has(Flags::IRON_DOOR);
            crosses = passes & !open & (self.can_open_iron_doors | !iron);
            passes = passes & open;
        }
        if crosses {
            return Passage::Through;
        }
        if passes {
            return Passage::Shape;
        }
        Passage::Wall
    }

    // The permission byte of a state with these flags. A body in water may leave it, so water isn't forbidden then.
    pub fn permission(self, in_water: bool, flags: Flags) -> u8
        ensures { result ≡ permission self in_water flags.bits }
    {
        let byte = match self.door_passage(flags) {
            Passage::Shape => SHAPED,
            Passage::Through => CROSSED,
            Passage::Wall => WALLED,
        };
        let water = self.avoid_water & !in_water & flags.has(Flags::WATER);
        let damage = self.avoid_damage_blocks & flags.has(Flags::DAMAGING);
        if water | damage {
            byte & COLLIDES
        } else {
            byte
        }
    }

    // The permission byte of each flag byte, in a table of the same length; else nothing is written.
    pub fn fill_permissions(
        self,
        in_water: bool,
        flags: &[u8],
        permissions: &mut [u8],
    ) -> Result<(), BadTable>
        ensures answer { filled_number result ≡ filled flags.now permissions.old }
        ensures written { permissions.new ≡ permission_table self in_water flags.now permissions.old }
    {
        if flags.len() != permissions.len() {
            return Err(BadTable);
        }
        // By index: what a loop writes through `iter_mut().zip(..)` is not told to its proof.
        for i in 0..flags.len() {
            let bits = flags[i];
            permissions[i] = self.permission(in_water, Flags { bits });
        }
        Ok(())
    }
}
