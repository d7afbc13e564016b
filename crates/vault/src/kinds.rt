// The two kinds of vault.
ghost use Rattle.history.specs.Events.{Kind, certifying, adopting};

// Which kind a vault is, as part of its type.
pub trait VaultKind {
    ghost kind: { Kind };
}

// The first kind works out its certificates itself.
#[derive(Clone, Copy)]
pub struct Certifying;

// The second kind adopts certificates that it is brought.
#[derive(Clone, Copy)]
pub struct Adopting;

impl VaultKind for Certifying {
    ghost kind = { certifying };
}

impl VaultKind for Adopting {
    ghost kind = { adopting };
}
