// What a call does to a record, and what can be asked of one.
ghost use Rattle.std.specs.Prelude.{◌≡◌};
ghost use Rattle.vault.specs.Entries.{entry, turned, goes, is_of, read, open_lease, is_spare, is_for};

use crate::book::{Lease, Record, State, Turn};
use credential::RoleName;

impl Record {
    // State and call together decide: any other pair leaves the record, and says so.
    pub(crate) fn turn(&mut self, call: Turn) -> bool
        ensures answer { result ≡ goes (entry self.old) call }
        ensures after { entry self.new ≡ turned (entry self.old) call }
    {
        match (*self, call) {
            (Record::Free, Turn::Offer(lease)) => {
                *self = Record::Offered(lease);
                true
            }
            (Record::Offered(lease), Turn::Draw) => {
                *self = Record::Held(lease);
                true
            }
            (Record::Offered(_), Turn::Decline) => {
                *self = Record::Free;
                true
            }
            (Record::Held(_), Turn::HandBack) => {
                *self = Record::Free;
                true
            }
            _ => false,
        }
    }

    // It has the lease of this serial in this state.
    pub(crate) fn is_of(self, serial: u32, state: State) -> bool
        ensures { result ≡ is_of serial state (entry self) }
    {
        match (state, self) {
            (State::Offered, Record::Offered(lease)) => lease.serial == serial,
            (State::Held, Record::Held(lease)) => lease.serial == serial,
            _ => false,
        }
    }

    // Its open lease: open is not free.
    pub(crate) fn open_lease(self) -> Option<Lease>
        ensures { read result ≡ open_lease (entry self) }
    {
        match self {
            Record::Free => None,
            Record::Offered(lease) | Record::Held(lease) => Some(lease),
        }
    }

    pub(crate) fn is_free(self) -> bool
        ensures { result ≡ is_spare (entry self) }
    {
        self.open_lease().is_none()
    }

    // It has an open lease of this role name.
    pub(crate) fn is_open_for(self, name: RoleName) -> bool
        ensures { result ≡ is_for name.number (open_lease (entry self)) }
    {
        self.open_lease()
            .is_some_and(|lease| lease.membership.role.name == name)
    }
}
