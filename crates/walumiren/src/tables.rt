// The two tables of a certificate, in memory of the program's own.
use checker::check;
use credential::{Membership, Refusal, Source};
use evaluator::evaluate;
use model::{Entry, Verdict};
use std::alloc::{AllocError, Global};

// Verdicts by their bytes, and numbers, as `check` and `evaluate` take them: two tables of one length.
#[derive(Drop)]
pub(crate) struct Tables {
    verdicts: Vec<u8>,
    numbers: Vec<u16>,
}

impl Tables {
    pub(crate) fn new(heap: Global) -> Result<Tables, AllocError> {
        let verdicts = vec![in heap; u8::from(Verdict::False); Membership::COUNT]?;
        let numbers = vec![in heap; 1u16; Membership::COUNT]?;
        Ok(Tables { verdicts, numbers })
    }

    // Fills the tables with the least certificate, and answers the rounds.
    pub(crate) fn fill<S: Source>(&mut self, source: &S) -> Result<u16, Refusal> {
        evaluate(
            source,
            self.verdicts.as_mut_slice(),
            self.numbers.as_mut_slice(),
        )
    }

    // Checks the tables as anyone's certificate of the source.
    pub(crate) fn check<S: Source>(&self, source: &S) -> Result<(), Refusal> {
        check(source, self.verdicts.as_slice(), self.numbers.as_slice())
    }

    // Puts another entry into the place of a membership's.
    pub(crate) fn spoil(&mut self, membership: Membership, verdict: Verdict, number: u16) {
        let place = membership.place();
        if let Some(v) = self.verdicts.get_mut(place) {
            *v = verdict.into();
        }
        if let Some(n) = self.numbers.get_mut(place) {
            *n = number;
        }
    }

    pub(crate) fn verdict(&self, membership: Membership) -> Verdict {
        let byte = self.verdicts.get(membership.place()).copied().unwrap_or(0);
        Verdict::try_from(byte).unwrap_or(Verdict::False)
    }

    pub(crate) fn number(&self, membership: Membership) -> u16 {
        self.numbers.get(membership.place()).copied().unwrap_or(1)
    }

    pub(crate) fn entry(&self, membership: Membership) -> Entry {
        Entry {
            membership,
            verdict: self.verdict(membership),
            number: self.number(membership),
        }
    }

    // How many entries have a verdict.
    pub(crate) fn count(&self, verdict: Verdict) -> usize {
        let byte = u8::from(verdict);
        self.verdicts.iter().filter(|b| **b == byte).count()
    }
}
