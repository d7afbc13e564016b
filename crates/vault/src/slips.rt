// Slips: each says by plain numbers which lease of which vault is meant.
ghost use Rattle.std.specs.Prelude.{◌≡◌};
ghost use Rattle.vault.specs.Slips.{slip_of};

use credential::Refusal;
use std::marker::PhantomData;

// The state of an offer that was neither drawn nor declined.
pub struct Offered;

// The state of a lease that was drawn and not yet handed back.
pub struct Held;

// A lease in the state `S`. It is moved and never copied. As it is not `Drop`, nobody can let it go: a program that
// does is refused before it runs.
pub struct Slip<S> {
    vault: u16,
    serial: u32,
    state: PhantomData<S>,
}

// An offer slip can be drawn or declined, and a lease slip can be handed back.
pub type OfferSlip = Slip<Offered>;

pub type LeaseSlip = Slip<Held>;

// A slip that was refused, on its way back to its holder, with the reason.
pub struct Returned<S> {
    pub why: Refusal,
    pub slip: S,
}

impl<S> Slip<S> {
    pub(crate) fn new(vault: u16, serial: u32) -> Slip<S>
        ensures { slip_of result ≡ record { vault = vault; serial = serial } }
    {
        Slip {
            vault,
            serial,
            state: PhantomData,
        }
    }

    // The numbers on the slip, which is then no more.
    pub(crate) fn spend(self) -> (u16, u32)
        ensures { result ≡ (self.vault, self.serial) }
    {
        let Slip {
            vault,
            serial,
            state: _,
        } = self;
        (vault, serial)
    }

    // The number of the vault that gave it.
    pub fn vault(&self) -> u16
        ensures { result ≡ self.now.vault }
    {
        self.vault
    }

    // The serial of its lease.
    pub fn serial(&self) -> u32
        ensures { result ≡ self.now.serial }
    {
        self.serial
    }
}

impl OfferSlip {
    // The slip of the lease once it is drawn.
    pub(crate) fn drawn(self) -> LeaseSlip
        ensures { slip_of result ≡ slip_of self }
    {
        let (vault, serial) = self.spend();
        Slip::new(vault, serial)
    }
}
