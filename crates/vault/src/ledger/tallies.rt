// The figures of the statement, by role name.
ghost use Rattle.std.specs.Prelude.{◌≡◌, ◌+◌, ◌<◌};
ghost use Rattle.vault.specs.Ledgers.{posted, Tallied, AllTallied};

use crate::ledger::Ledger;
use crate::statement::Tally;
use credential::RoleName;
use std::array;

impl Ledger {
    // The tallies of the sixteen role names, rising.
    pub(crate) fn tallies(&self) -> [Tally; 16]
        ensures { AllTallied (posted self.now) result }
    {
        array::from_fn(|i| self.tally(i))
    }

    // That of the role name at an index.
    fn tally(&self, index: usize) -> Tally
        requires { index < 16 }
        ensures { Tallied (posted self.now) (index + 1) result }
    {
        let figures = self.figures[index];
        Tally {
            given: figures.given,
            declined: figures.declined,
            handed_back: figures.handed_back,
            open: self.book.open_of(name_at(index)),
        }
    }
}

// The role name at an index.
fn name_at(index: usize) -> RoleName
    requires { index < 16 }
    ensures { result.number ≡ index + 1 }
{
    RoleName::new(index as u32 + 1).ok().unwrap()
}
