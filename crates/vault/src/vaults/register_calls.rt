// Making a vault, and the calls on its register.
ghost use Rattle.std.specs.Prelude.{◌≡◌, IfOk};
ghost use Rattle.credential.specs.Refusals.{answered};
ghost use Rattle.vault.specs.Vaults.{Made, Happened, publish_event, withdraw_event};

use crate::kinds::VaultKind;
use crate::ledger::Ledger;
use crate::vaults::Vault;
use crate::vaults::kept::Kept;
use credential::{Credential, Refusal};
use register::registers::Register;
use std::alloc::{AllocError, Global};

impl<R: Register + Drop, K: VaultKind + Drop> Vault<R, K> {
    // A vault over a register, whatever list that has, or the want of memory.
    pub fn new(heap: Global, kind: K, number: u16, register: R) -> Result<Vault<R, K>, AllocError>
        ensures { IfOk result (λ v. Made K.VaultKind.kind number R.Register.CAPACITY (R.Source.list register) v) }
    {
        // Asked for what `most` promises: the list is within the capacity.
        let _capacity = register.most();
        let kept = Kept::new(heap)?;
        let ledger = Ledger::new(heap)?;
        Ok(Vault {
            kind,
            number,
            register,
            kept,
            ledger,
        })
    }

    // Its number.
    pub fn number(&self) -> u16
        ensures { result ≡ self.now.number }
    {
        self.number
    }

    // Publishes a credential; where it is taken, no certificate stands any more.
    pub fn publish(&mut self, credential: Credential) -> Result<(), Refusal>
        ensures { Happened self.old (publish_event credential (answered result)) self.new }
    {
        self.register.publish(credential)?;
        self.kept.forget();
        Ok(())
    }

    // Withdraws the credential at a place; where it is taken, no certificate stands any more.
    pub fn withdraw(&mut self, place: usize) -> Result<(), Refusal>
        ensures { Happened self.old (withdraw_event place (answered result)) self.new }
    {
        self.register.withdraw(place)?;
        self.kept.forget();
        Ok(())
    }
}
