// Making an entity or a role name, and what can be asked of it.
ghost use Rattle.std.specs.Prelude.{◌≡◌, ◌-◌, ◌<◌, ◌≤◌};
ghost use Rattle.credential.specs.Numbers.{number_of};
ghost use Rattle.credential.specs.Refusals.{answered};

use crate::numbers::{Entity, Number, RoleName};
use crate::refusals::Refusal;

impl Entity {
    // The last entity.
    pub const MOST: u8 = 32;
}

impl RoleName {
    // The last role name.
    pub const MOST: u8 = 16;
}

impl<const MOST: u8> Number<MOST> {
    // The entity or role name of a number, or the refusal of one out of range.
    pub fn new(number: u32) -> Result<Number<MOST>, Refusal>
        ensures { answered result ≡ number_of MOST number }
    {
        if number >= 1 && number <= MOST as u32 {
            Ok(Number {
                number: number as u8,
            })
        } else {
            Err(Refusal::Range)
        }
    }

    pub fn number(self) -> u8
        ensures value { result ≡ self.entry.number }
        ensures low { 1 ≤ result }
        ensures high { result ≤ MOST }
    {
        self.number
    }

    // Its place among all of its range, from 0.
    pub fn index(self) -> usize
        ensures value { result ≡ self.entry.number - 1 }
        ensures within { result < MOST }
    {
        usize::from(self.number) - 1
    }
}
