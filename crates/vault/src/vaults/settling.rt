// What the calls on a slip share.
ghost use Rattle.std.specs.Fn.{FnOnceReturnsAtMut};
ghost use Rattle.vault.specs.Settling.{Settles};

use crate::kinds::VaultKind;
use crate::ledger::Ledger;
use crate::slips::{Returned, Slip};
use crate::vaults::Vault;
use credential::Refusal;
use register::registers::Register;

impl<R: Register + Drop, K: VaultKind + Drop> Vault<R, K> {
    // Makes a call on the lease of a slip, if the slip is this vault's, and gives the slip back.
    pub(super) fn settle<S, F: FnOnce(&mut Ledger) -> Result<(), Refusal>>(
        &mut self,
        slip: Slip<S>,
        call: F,
    ) -> Result<Slip<S>, Returned<Slip<S>>>
        requires { F.IsAlwaysCallable call }
        ensures { Settles (FnOnceReturnsAtMut F.FnOnce call) slip self.old result self.new }
    {
        if slip.vault() != self.number {
            return Err(Returned {
                why: Refusal::SlipUnknown,
                slip,
            });
        }
        match call(&mut self.ledger) {
            Ok(()) => Ok(slip),
            Err(why) => Err(Returned { why, slip }),
        }
    }
}
