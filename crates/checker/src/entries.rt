// Whether the entries of tables meet their rules.
ghost use Rattle.std.specs.Prelude.{◌≡◌};
ghost use Rattle.credential.specs.Refusals.{answered};
ghost use Rattle.checker.specs.Rules.{entry_refusal};
ghost use Rattle.checker.specs.Checks.{Walked};

use crate::questions::Question;
use crate::tables::Tables;
use crate::wants::Want;
use credential::{Credential, Membership, Refusal};
use model::Verdict;

impl Tables<'_> {
    // The entry of the membership meets its rule, or is refused.
    fn check_entry(self, credentials: &[Credential], m: Membership) -> Result<(), Refusal>
        ensures { answered result ≡ entry_refusal credentials.now self.entry.verdicts.now self.entry.numbers.now m }
    {
        let place = m.place();
        let passes = |want| Question::new(self, m, want).passes(credentials);
        match self.entry(m).verdict {
            Verdict::True if !passes(Want::Proved) => Err(Refusal::TrueUnproved { place }),
            Verdict::False if passes(Want::Unrefuted) => Err(Refusal::FalseUnrefuted { place }),
            Verdict::Undefined if passes(Want::AllTrue) => Err(Refusal::UndefinedProved { place }),
            Verdict::Undefined if !passes(Want::Possible) => {
                Err(Refusal::UndefinedUnsupported { place })
            }
            _ => Ok(()),
        }
    }

    // Every entry meets its rule, or the first by place that does not is refused.
    pub(crate) fn check_entries(self, credentials: &[Credential]) -> Result<(), Refusal>
        ensures { Walked (entry_refusal credentials.now self.entry.verdicts.now self.entry.numbers.now) (answered result) }
    {
        // A `for`, since a chain of `filter_map(Membership::at)` would pass over a place that has no membership.
        for index in 0..Membership::COUNT {
            self.check_entry(credentials, Membership::at(index).unwrap())?;
        }
        Ok(())
    }
}
