// Making a ledger, and the calls that change it.
ghost use Rattle.std.specs.Prelude.{◌≡◌, replicate, IfOk, Decides};
ghost use Rattle.credential.specs.Refusals.{answered};
ghost use Rattle.history.specs.Contents.{is_free, is_offered, is_held, no_figures};
ghost use Rattle.vault.specs.Ledgers.{posted, Recorded, Lent, Turned, drawn_at, declined_at, handed_back_at};

use crate::book::{Book, Lease, State, Turn};
use crate::ledger::{Figures, Ledger};
use credential::{Membership, Refusal};
use std::alloc::{AllocError, Global};

// The most offers that a vault gives.
const MOST_OFFERS: u32 = 999_999;

impl Ledger {
    // A ledger with no offer given, or the want of memory.
    pub(crate) fn new(heap: Global) -> Result<Ledger, AllocError>
        ensures { IfOk result (λ l. posted l ≡ record { figures = no_figures; book = replicate 256 is_free }) }
    {
        let book = Book::new(heap)?;
        Ok(Ledger {
            given: 0,
            figures: [Figures::default(); 16],
            book,
        })
    }

    // Enters an offer in the first free record, and answers its serial.
    pub(crate) fn offer(&mut self, membership: Membership) -> Result<u32, Refusal>
        ensures { Lent (posted self.old) membership (answered result) (posted self.new) }
    {
        let Some(i) = self.book.find_free() else {
            return Err(Refusal::BookFull);
        };
        if self.given == MOST_OFFERS {
            return Err(Refusal::OffersSpent);
        }
        let serial = self.given + 1;
        self.book.turn(i, Turn::Offer(Lease { serial, membership }));
        self.given = serial;
        self.figures[membership.role.name.index()].given += 1;
        Ok(serial)
    }

    // Marks the offered lease of this serial as held. This call and the next two differ in all that they say: the
    // state asked for, the turn, and the figure that counts it.
    pub(crate) fn draw(&mut self, serial: u32) -> Result<(), Refusal>
        ensures { Turned is_offered drawn_at (posted self.old) serial (answered result) (posted self.new) }
    {
        let Some(_lease) = self.book.settle(serial, State::Offered, Turn::Draw) else {
            return Err(Refusal::SlipUnknown);
        };
        Ok(())
    }

    // Ends the offered lease of this serial.
    pub(crate) fn decline(&mut self, serial: u32) -> Result<(), Refusal>
        ensures { Turned is_offered declined_at (posted self.old) serial (answered result) (posted self.new) }
    {
        let Some(lease) = self.book.settle(serial, State::Offered, Turn::Decline) else {
            return Err(Refusal::SlipUnknown);
        };
        self.figures[lease.membership.role.name.index()].declined += 1;
        Ok(())
    }

    // Ends the held lease of this serial.
    pub(crate) fn hand_back(&mut self, serial: u32) -> Result<(), Refusal>
        ensures { Turned is_held handed_back_at (posted self.old) serial (answered result) (posted self.new) }
    {
        let Some(lease) = self.book.settle(serial, State::Held, Turn::HandBack) else {
            return Err(Refusal::SlipUnknown);
        };
        self.figures[lease.membership.role.name.index()].handed_back += 1;
        Ok(())
    }

    // Whether a lease with this serial is open in this state.
    pub(crate) fn has(&self, serial: u32, state: State) -> bool
        ensures { Decides result (Recorded state (posted self.now) serial) }
    {
        self.book.find(serial, state).is_some()
    }
}
