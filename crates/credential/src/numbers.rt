// Numbers from 1 up to a most: those of entities and those of role names are two types, so that neither is taken for the other.
ghost use Rattle.std.specs.Prelude.{◌≤◌};

mod calls;
mod rising;

pub use rising::Rising;

// A number from 1 to `MOST`.
#[derive(Clone, Copy, PartialEq, Eq)]
pub struct Number<const MOST: u8> {
    number: u8,
    ghost low: { 1 ≤ number },
    ghost high: { number ≤ MOST },
}

// An entity, by its number from 1 to 32.
pub type Entity = Number<32>;

// A role name, by its number from 1 to 16.
pub type RoleName = Number<16>;
