// What a holder can ask about a slip.
ghost use Rattle.std.specs.Prelude.{◌≡◌, Decides};
ghost use Rattle.history.specs.Law.{Fits};
ghost use Rattle.history.specs.Steps.{seen};
ghost use Rattle.vault.specs.Slips.{slip_of};
ghost use Rattle.vault.specs.Ledgers.{Recorded};
ghost use Rattle.vault.specs.Settling.{ledger_of};

use crate::book::State;
use crate::kinds::VaultKind;
use crate::slips::{LeaseSlip, OfferSlip, Slip};
use crate::vaults::Vault;
use register::registers::Register;

impl<R: Register + Drop, K: VaultKind + Drop> Vault<R, K> {
    // Whether this vault would take a draw or a decline of the slip.
    pub fn waits_for(&self, slip: &OfferSlip) -> bool
        ensures { Decides result (Fits (seen self.now) (seen self.now).Offered (slip_of slip.now)) }
    {
        self.has_lease_of(slip, State::Offered)
    }

    // Whether this vault would take the slip back.
    pub fn misses(&self, slip: &LeaseSlip) -> bool
        ensures { Decides result (Fits (seen self.now) (seen self.now).Held (slip_of slip.now)) }
    {
        self.has_lease_of(slip, State::Held)
    }

    // Whether the slip is this vault's, and its lease open in this state.
    fn has_lease_of<S>(&self, slip: &Slip<S>, state: State) -> bool
        ensures { Decides result ((slip.now.vault ≡ self.now.number) × Recorded state (ledger_of self.now) slip.now.serial) }
    {
        slip.vault() == self.number && self.ledger.has(slip.serial(), state)
    }
}
