// Memberships, and their places in a table.
ghost use Rattle.std.specs.Prelude.{◌≡◌, ◌<◌, ◌≤◌, Some, MatchOption};
ghost use Rattle.credential.specs.Memberships.{place, membership_at};

use crate::numbers::{Entity, RoleName};
use crate::roles::Role;

// That an entity belongs to a role.
#[derive(Clone, Copy, PartialEq, Eq)]
pub struct Membership {
    pub role: Role,
    pub member: Entity,
}

impl Membership {
    // How many there are.
    pub const COUNT: usize = 16384;

    // Its place in a table of all memberships, from 0.
    pub fn place(self) -> usize
        ensures value { result ≡ place self }
        ensures within { result < 16384 }
        ensures back { membership_at (place self) ≡ Some self }
    {
        let owner = self.role.owner.index();
        let name = self.role.name.index();
        let member = self.member.index();
        (owner * 16 + name) * 32 + member
    }

    // The membership at a place, absent past the last.
    pub fn at(index: usize) -> Option<Membership>
        ensures value { result ≡ membership_at index }
        ensures back { MatchOption result (16384 ≤ index) (λ m. place m ≡ index) }
    {
        read_place(index)
    }
}

fn read_place(index: usize) -> Option<Membership>
    ensures { result ≡ membership_at index }
{
    if index >= Membership::COUNT {
        return None;
    }
    let owner = Entity::new((index / 512 + 1) as u32).ok()?;
    let name = RoleName::new((index / 32 % 16 + 1) as u32).ok()?;
    let member = Entity::new((index % 32 + 1) as u32).ok()?;
    Some(Membership {
        role: Role { owner, name },
        member,
    })
}
