// Publishing all credentials of a source into a register.
ghost use Rattle.std.specs.Prelude.{◌≡◌, ◌+◌, ◌<◌, length};
ghost use Rattle.credential.specs.Refusals.{answered};
ghost use Rattle.register.specs.Tallies.{none, total, counted, published_all};

use crate::registers::Register;
use credential::{Refusal, Source};

// How many credentials were taken, and how many were refused since they stood already or the register was full.
#[derive(Clone, Copy, Debug, Default, PartialEq, Eq)]
pub struct Tally {
    pub taken: usize,
    pub standing: usize,
    pub full: usize,
}

// Publishes each credential of the source in order, whatever became of those before it.
pub fn publish_all<R: Register, S: Source>(register: &mut R, source: &S) -> Tally
    ensures tally { result ≡ (published_all R.Register.CAPACITY none (R.Source.list register.old) (S.Source.list source.now)).tally }
    ensures list { R.Source.list register.new ≡ (published_all R.Register.CAPACITY none (R.Source.list register.old) (S.Source.list source.now)).list }
    ensures all { total result ≡ length (S.Source.list source.now) }
{
    let mut tally = Tally::default();
    for credential in source.credentials() {
        tally.count(register.publish(credential));
    }
    tally
}

impl Tally {
    // Counts one answer more.
    fn count(&mut self, answer: Result<(), Refusal>)
        requires { total self.old < 256 }
        ensures value { self.new ≡ counted self.old (answered answer) }
        ensures total { total self.new ≡ total self.old + 1 }
    {
        match answer {
            Ok(()) => self.taken += 1,
            Err(Refusal::AlreadyStands) => self.standing += 1,
            Err(_) => self.full += 1,
        }
    }
}
