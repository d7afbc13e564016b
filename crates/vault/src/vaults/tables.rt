// Certifying and adopting: a certificate comes to stand.
ghost use Rattle.credential.specs.Refusals.{answered};
ghost use Rattle.model.specs.Tables.{table};
ghost use Rattle.evaluator.specs.Evaluations.{Evaluated};
ghost use Rattle.vault.specs.Vaults.{Happened, certify_event, adopt_event};

use crate::kinds::{Adopting, Certifying};
use crate::vaults::Vault;
use checker::check;
use credential::Refusal;
use evaluator::evaluate;
use register::registers::Register;

impl<R: Register + Drop> Vault<R, Certifying> {
    // Fills the caller's tables, two slices as `evaluate` takes them, with the least certificate of the standing credentials, which then stands.
    pub fn certify(&mut self, verdicts: &mut [u8], numbers: &mut [u16]) -> Result<u16, Refusal>
        ensures happened { Happened self.old (certify_event (table verdicts.old numbers.old) (answered result) (table verdicts.new numbers.new)) self.new }
        ensures tables { Evaluated self.old.list (table verdicts.old numbers.old) (answered result) (table verdicts.new numbers.new) }
    {
        let rounds = evaluate(&self.register, verdicts, numbers)?;
        self.kept.keep(verdicts);
        Ok(rounds)
    }
}

impl<R: Register + Drop> Vault<R, Adopting> {
    // Checks the caller's tables, two slices as `check` takes them, against the standing credentials; if they are a certificate, it then stands.
    pub fn adopt(&mut self, verdicts: &[u8], numbers: &[u16]) -> Result<(), Refusal>
        ensures { Happened self.old (adopt_event (table verdicts.now numbers.now) (answered result)) self.new }
    {
        check(&self.register, verdicts, numbers)?;
        self.kept.keep(verdicts);
        Ok(())
    }
}
