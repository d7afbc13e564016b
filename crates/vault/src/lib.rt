// Vaults: they own a register, let a certificate stand, and lend and count leases. Their calls cannot be reached from
// outside yet: they come with the promise over every list of calls.
#![tactic(auto)]

mod book;
mod kinds;
mod ledger;
pub mod slips;
pub mod statement;
mod vaults;
