// What a register is, and the tests that all registers share.
ghost use Rattle.std.specs.Prelude.{◌≡◌, ℕ, ◌≤◌, length, Decides};
ghost use Rattle.std.specs.List.{ContainsAt as Has};
ghost use Rattle.credential.specs.Refusals.{answered};
ghost use Rattle.register.specs.Standing.{stands};
ghost use Rattle.register.specs.Registers.{IsCapacity, appended, published, roomy, located, withdrawn};

use credential::{Credential, Refusal, Source};

// A source into which credentials are published and from which they are withdrawn, up to the capacity of its kind.
pub trait Register: Source {
    const CAPACITY: usize;

    ghost CAPACITY: { ℕ };

    // Puts a credential at the end of the list, whether it stands already or not, unless the register is full.
    fn append(&mut self, credential: Credential) -> Result<(), Refusal>
        ensures answer { answered result ≡ (appended CAPACITY (Self.Source.list self.old) credential).answer }
        ensures list { Self.Source.list self.new ≡ (appended CAPACITY (Self.Source.list self.old) credential).list }
        ensures within { length (Self.Source.list self.new) ≤ CAPACITY };

    // Takes out the credential at a place from 1, and keeps the order of the others.
    fn withdraw(&mut self, place: usize) -> Result<(), Refusal>
        ensures answer { answered result ≡ (withdrawn (Self.Source.list self.old) place).answer }
        ensures list { Self.Source.list self.new ≡ (withdrawn (Self.Source.list self.old) place).list }
        ensures within { length (Self.Source.list self.new) ≤ CAPACITY };

    // The capacity is from 1 to 192, and the list is within it.
    ghost sized: { IsCapacity CAPACITY };

    ghost within: { (s : Self) → length (Self.Source.list s) ≤ CAPACITY };

    // The most that it holds, which is its capacity.
    final fn most(&self) -> usize
        ensures value { result ≡ CAPACITY }
        ensures some { 1 ≤ result }
        ensures few { result ≤ 192 }
        ensures within { length (Self.Source.list self.now) ≤ CAPACITY }
    {
        Self::CAPACITY
    }

    // Puts a credential at the end of the list, unless it stands already or the register is full.
    final fn publish(&mut self, credential: Credential) -> Result<(), Refusal>
        ensures answer { answered result ≡ (published CAPACITY (Self.Source.list self.old) credential).answer }
        ensures list { Self.Source.list self.new ≡ (published CAPACITY (Self.Source.list self.old) credential).list }
        ensures within { length (Self.Source.list self.new) ≤ CAPACITY }
    {
        if stands(self, credential) {
            return Err(Refusal::AlreadyStands);
        }
        self.append(credential)
    }
}

// Whether a credential stands in a source.
pub fn stands<S: Source>(source: &S, credential: Credential) -> bool
    ensures value { result ≡ stands (S.Source.list source.now) credential }
    ensures decides { Decides result (Has (S.Source.list source.now) credential) }
{
    source.credentials().any(|standing| standing == credential)
}

// Whether there is room for one more: not where the register is full.
pub fn room(count: usize, capacity: usize) -> Result<(), Refusal>
    ensures { answered result ≡ roomy count capacity }
{
    if count == capacity {
        Err(Refusal::RegisterFull)
    } else {
        Ok(())
    }
}

// Whether a credential stands at a place: only from 1 to the count. A field's number has such a test with another
// error; to share it would take the error as a parameter, which is no plainer.
pub fn locate(place: usize, count: usize) -> Result<(), Refusal>
    ensures { answered result ≡ located place count }
{
    if (1..=count).contains(&place) {
        Ok(())
    } else {
        Err(Refusal::NoSuchPlace)
    }
}
