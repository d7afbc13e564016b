// What a list of calls on two vaults is made of: plain data, with no slip in it.
#![tactic(auto)]

use credential::{Credential, Membership};

// A slip by the numbers that it carries.
#[derive(Clone, Copy)]
pub struct SlipName {
    pub vault: u16,
    pub serial: u32,
}

// A call that both vaults have. The numbers of an offer are plain: owner, role name, member.
#[derive(Clone, Copy)]
pub enum Call {
    Publish(Credential),
    Withdraw(usize),
    Offer(u32, u32, u32),
    Draw(SlipName),
    Decline(SlipName),
    HandBack(SlipName),
    Statement,
}

// A call on the first or the second vault. The first alone certifies, into the table in hand, and the second alone
// adopts that table; an edit sets one entry of it.
#[derive(Clone, Copy)]
pub enum Step {
    First(Call),
    Second(Call),
    Certify,
    Adopt,
    Edit {
        membership: Membership,
        verdict: u8,
        number: u16,
    },
}
