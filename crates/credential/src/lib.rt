// Entities, role names, roles, memberships, credentials, refusals, and sources of credentials.
#![tactic(auto)]

pub mod credentials;
pub mod equality;
pub mod letters;
pub mod memberships;
pub mod notation;
pub mod numbers;
pub mod refusals;
pub mod roles;
pub mod sources;

pub use credentials::Credential;
pub use letters::{Letter, Mark, UnknownLetter};
pub use memberships::Membership;
pub use numbers::{Entity, Number, RoleName};
pub use refusals::Refusal;
pub use roles::Role;
pub use sources::Source;
