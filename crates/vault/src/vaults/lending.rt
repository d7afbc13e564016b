// Offering, drawing, declining and handing back, and the statement.
ghost use Rattle.std.specs.Prelude.{◌≡◌};
ghost use Rattle.credential.specs.Refusals.{answered};
ghost use Rattle.history.specs.Statement.{statement};
ghost use Rattle.history.specs.Statement.{units as fixed-units};
ghost use Rattle.history.specs.Theorems.{membership_of};
ghost use Rattle.vault.specs.Statements.{statement_answer, statement_after};
ghost use Rattle.vault.specs.Slips.{slip_of};
ghost use Rattle.vault.specs.Vaults.{Happened, offer_event, OfferedByNumbers, draw_event, decline_event, hand_back_event, spent, GivenOn, Back};

use crate::kinds::VaultKind;
use crate::slips::{LeaseSlip, OfferSlip, Returned};
use crate::statement::writing::write_statement;
use crate::vaults::Vault;
use credential::{Entity, Membership, Refusal, Role, RoleName};
use register::registers::Register;

// The units of one lease, by role name.
const UNITS: [u16; 16] = [1, 1, 1, 1, 1, 1, 1, 1, 2, 2, 2, 2, 5, 5, 5, 5];

impl<R: Register + Drop, K: VaultKind + Drop> Vault<R, K> {
    // Offers a lease for a membership that the standing certificate shows as true.
    pub fn offer(&mut self, membership: Membership) -> Result<OfferSlip, Refusal>
        ensures { Happened self.old (offer_event membership (answered result)) self.new }
    {
        self.kept.judge(membership)?;
        let serial = self.ledger.offer(membership)?;
        Ok(OfferSlip::new(self.number, serial))
    }

    // The same by plain numbers, as a list of calls has them: owner, role name and member.
    pub fn offer_by_numbers(
        &mut self,
        owner: u32,
        name: u32,
        member: u32,
    ) -> Result<OfferSlip, Refusal>
        ensures { OfferedByNumbers owner name member (membership_of owner name member) self.old (answered result) self.new }
    {
        let membership = read_membership(owner, name, member)?;
        self.offer(membership)
    }

    // Draws the lease of an offer slip.
    pub fn draw(&mut self, slip: OfferSlip) -> Result<LeaseSlip, Returned<OfferSlip>>
        ensures happened { Happened self.old (draw_event (slip_of slip) (spent result)) self.new }
        ensures given { GivenOn (slip_of slip) result }
        ensures back { Back slip result }
    {
        let serial = slip.serial();
        let slip = self.settle(slip, |ledger| ledger.draw(serial))?;
        Ok(slip.drawn())
    }

    // Declines the offer of a slip.
    pub fn decline(&mut self, slip: OfferSlip) -> Result<(), Returned<OfferSlip>>
        ensures happened { Happened self.old (decline_event (slip_of slip) (spent result)) self.new }
        ensures back { Back slip result }
    {
        let serial = slip.serial();
        let slip = self.settle(slip, |ledger| ledger.decline(serial))?;
        let _numbers = slip.spend();
        Ok(())
    }

    // Hands the lease of a slip back.
    pub fn hand_back(&mut self, slip: LeaseSlip) -> Result<(), Returned<LeaseSlip>>
        ensures happened { Happened self.old (hand_back_event (slip_of slip) (spent result)) self.new }
        ensures back { Back slip result }
    {
        let serial = slip.serial();
        let slip = self.settle(slip, |ledger| ledger.hand_back(serial))?;
        let _numbers = slip.spend();
        Ok(())
    }

    // Writes the statement into the buffer, and answers how many bytes were written.
    pub fn statement(&self, out: &mut [u8]) -> Result<usize, Refusal>
        ensures answers { answered result ≡ statement_answer (statement fixed-units self.now) out.old }
        ensures after { out.new ≡ statement_after (statement fixed-units self.now) out.old }
    {
        let tallies = self.ledger.tallies();
        write_statement(&UNITS, &tallies, out)
    }
}

// The membership of plain numbers, or the refusal of the first that is out of range.
fn read_membership(owner: u32, name: u32, member: u32) -> Result<Membership, Refusal>
    ensures { answered result ≡ membership_of owner name member }
{
    let owner = Entity::new(owner)?;
    let name = RoleName::new(name)?;
    let member = Entity::new(member)?;
    Ok(Membership {
        role: Role { owner, name },
        member,
    })
}
