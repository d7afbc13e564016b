// Whether the literals of a ground clause pass.
ghost use Rattle.std.specs.Prelude.{◌≡◌};
ghost use Rattle.model.specs.Verdicts.{byte_of};
ghost use Rattle.checker.specs.Rules.{literal_ok};

use crate::wants::Want;
use model::{Entry, Verdict};

// A literal is a membership, or that there is none.
#[derive(Clone, Copy)]
pub(crate) enum Sign {
    Positive,
    Negated,
}

impl Want {
    // A literal of the sign with this entry passes at number n.
    pub(crate) fn is_met(self, sign: Sign, n: u16, entry: Entry) -> bool
        ensures { result ≡ literal_ok sign self n (byte_of entry.verdict) entry.number }
    {
        let Entry {
            verdict,
            number,
            ..
        } = entry;
        match (self, sign) {
            (Want::Proved, Sign::Positive) => verdict == Verdict::True && number < n,
            (Want::Proved, Sign::Negated) => verdict == Verdict::False && number < n,
            (Want::Unrefuted, Sign::Positive) => !(verdict == Verdict::False && number <= n),
            (Want::Unrefuted, Sign::Negated) => !(verdict == Verdict::True && number < n),
            (Want::AllTrue, Sign::Positive) => verdict == Verdict::True,
            (Want::AllTrue, Sign::Negated) => verdict == Verdict::False,
            (Want::Possible, Sign::Positive) => {
                verdict == Verdict::True || (verdict == Verdict::Undefined && number < n)
            }
            (Want::Possible, Sign::Negated) => verdict != Verdict::True,
        }
    }
}
