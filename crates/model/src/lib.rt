// The well-founded model of a list of credentials: specs/ says what it is and what holds of it.
#![tactic(auto)]

pub mod entities;
pub mod entries;
pub mod loading;
pub mod verdicts;

pub use entities::entity_of_bit;
pub use entries::Entry;
pub use loading::{Loaded, load};
pub use verdicts::{UnknownVerdict, Verdict};
