// What `==` says of two entities, role names, roles, memberships or credentials: exactly whether they are the same.
ghost use Rattle.credential.specs.Equality.{EqualityDecides};

use crate::credentials::Credential;
use crate::memberships::Membership;
use crate::numbers::{Entity, RoleName};
use crate::roles::Role;

// Each `==` decides whether the two values are equal.
pub fn equality_decides()
    ensures entities { EqualityDecides ⟦<Entity as PartialEq>⟧.eq }
    ensures role_names { EqualityDecides ⟦<RoleName as PartialEq>⟧.eq }
    ensures roles { EqualityDecides ⟦<Role as PartialEq>⟧.eq }
    ensures memberships { EqualityDecides ⟦<Membership as PartialEq>⟧.eq }
    ensures credentials { EqualityDecides ⟦<Credential as PartialEq>⟧.eq }
{}
