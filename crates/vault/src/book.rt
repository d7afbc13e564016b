// The book of leases: 256 records, in memory that is taken at the making.
ghost use Rattle.std.specs.Prelude.{◌≡◌, vec_len};

use credential::Membership;

mod calls;
mod lending;
mod records;

// A lease: its serial, and the membership offered.
#[derive(Clone, Copy)]
pub(crate) struct Lease {
    pub(crate) serial: u32,
    pub(crate) membership: Membership,
}

// A record: free, or with a lease that is offered or held.
#[derive(Clone, Copy)]
pub(crate) enum Record {
    Free,
    Offered(Lease),
    Held(Lease),
}

// The state of an open lease.
#[derive(Clone, Copy)]
pub(crate) enum State {
    Offered,
    Held,
}

// A call that turns a record; an offer brings its lease.
#[derive(Clone, Copy)]
pub(crate) enum Turn {
    Offer(Lease),
    Draw,
    Decline,
    HandBack,
}

// The records, of which one at a time is lent.
#[derive(Drop)]
pub(crate) struct Book {
    records: Vec<Record>,
    ghost full: { vec_len records ≡ 256 },
}
