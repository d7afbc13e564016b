// Keeping the verdicts of a certificate, letting them go, and judging by them.
ghost use Rattle.std.specs.Prelude.{◌≡◌, true, length, IfOk};
ghost use Rattle.credential.specs.Refusals.{answered};
ghost use Rattle.vault.specs.Verdicts.{LawfulWhile, judged};
ghost use Rattle.vault.specs.Keeping.{kept_by, nothing, keeping};

use crate::vaults::kept::Kept;
use credential::{Membership, Refusal};
use model::Verdict;
use std::alloc::{AllocError, Global};

impl Kept {
    // Memory for the verdicts, while no certificate stands.
    pub(crate) fn new(heap: Global) -> Result<Kept, AllocError>
        ensures { IfOk result (λ k. kept_by k ≡ nothing) }
    {
        let mut verdicts = Vec::new(heap);
        verdicts.resize(Membership::COUNT, 0)?;
        Ok(Kept {
            stands: false,
            verdicts,
        })
    }

    // From here on a certificate with these verdicts stands.
    pub(crate) fn keep(&mut self, verdicts: &[u8])
        requires wide { length verdicts.now ≡ 16384 }
        requires lawful { LawfulWhile true verdicts.now }
        ensures { kept_by self.new ≡ keeping verdicts.now }
    {
        self.verdicts.as_mut_slice().copy_from_slice(verdicts);
        self.stands = true;
    }

    // From here on no certificate stands.
    pub(crate) fn forget(&mut self)
        ensures { kept_by self.new ≡ nothing }
    {
        self.stands = false;
    }

    // Whether the certificate that stands shows the membership as true.
    pub(crate) fn judge(&self, membership: Membership) -> Result<(), Refusal>
        ensures { answered result ≡ judged membership (kept_by self.now) }
    {
        if !self.stands {
            return Err(Refusal::NoCertificate);
        }
        match Verdict::try_from(self.verdicts[membership.place()]) {
            Ok(Verdict::True) => Ok(()),
            Ok(Verdict::False) => Err(Refusal::MembershipFalse),
            _ => Err(Refusal::MembershipUndefined),
        }
    }
}
