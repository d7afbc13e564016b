// The check of a certificate against any source's credentials.
#![tactic(auto)]

ghost use Rattle.credential.specs.Refusals.{answered};
ghost use Rattle.model.specs.Tables.{table};
ghost use Rattle.model.specs.Theorems.{LawsOfCertificates};
ghost use Rattle.checker.specs.Checks.{Checked, OneAnswer, AcceptedIsTheModel, CertificatesAccepted, SameAnswer};

use credential::{Credential, Refusal, Source};
use model::load;
use tables::Tables;

mod entries;
mod literals;
mod questions;
mod tables;
mod wants;

// Accepts exactly the certificates of the source's credentials, and else refuses the first place that breaks a rule.
// The two tables are two slices, as C hands them over.
pub fn check<S: Source>(source: &S, verdicts: &[u8], numbers: &[u16]) -> Result<(), Refusal>
    ensures says { Checked (S.Source.list source.now) (table verdicts.now numbers.now) (answered result) }
    ensures alone { OneAnswer }
    ensures sound { AcceptedIsTheModel (S.Source.list source.now) (table verdicts.now numbers.now) (answered result) }
    ensures complete { CertificatesAccepted (S.Source.list source.now) (table verdicts.now numbers.now) (answered result) }
    ensures order { SameAnswer (S.Source.list source.now) (table verdicts.now numbers.now) (answered result) }
    ensures laws { LawsOfCertificates }
{
    let credentials = load(source);
    check_list(credentials.list(), verdicts, numbers)
}

// The same for a list of credentials.
fn check_list(credentials: &[Credential], verdicts: &[u8], numbers: &[u16]) -> Result<(), Refusal>
    ensures { Checked credentials.now (table verdicts.now numbers.now) (answered result) }
{
    let tables = Tables::new(verdicts, numbers)?;
    tables.check_entries(credentials)
}
