// Roles.
use crate::numbers::{Entity, RoleName};

// A role name in the hands of the entity that defines its members, shown as `1.3`.
#[derive(Clone, Copy, PartialEq, Eq)]
pub struct Role {
    pub owner: Entity,
    pub name: RoleName,
}
