// Making a book, finding a record in it, turning one, and counting the open ones.
ghost use Rattle.std.specs.Prelude.{◌≡◌, ◌<◌, ◌≤◌, position, replicate, IfOk, slice_index_or, slice_set};
ghost use Rattle.history.specs.Words.{for};
ghost use Rattle.history.specs.Contents.{is_free, in_book};
ghost use Rattle.vault.specs.Entries.{entry, turned, goes, is_of, is_spare, Settled};
ghost use Rattle.vault.specs.Books.{entries};

use crate::book::{Book, Lease, Record, State, Turn};
use credential::RoleName;
use std::alloc::{AllocError, Global};

// How many records a book has.
const RECORDS: usize = 256;

impl Book {
    // A book of free records, or the want of memory.
    pub(crate) fn new(heap: Global) -> Result<Book, AllocError>
        ensures { IfOk result (λ b. entries b ≡ replicate 256 is_free) }
    {
        let mut records = Vec::new(heap);
        records.resize(RECORDS, Record::Free)?;
        Ok(Book { records })
    }

    // The first record with the lease of this serial in this state. Together the two are what a slip says of a lease,
    // by its number and by its type.
    pub(crate) fn find(&self, serial: u32, state: State) -> Option<usize>
        ensures { result ≡ position (λ r. is_of serial state (entry r)) self.now.records.items }
    {
        self.records
            .iter()
            .position(|record| record.is_of(serial, state))
    }

    // The first free record.
    pub(crate) fn find_free(&self) -> Option<usize>
        ensures { result ≡ position (λ r. is_spare (entry r)) self.now.records.items }
    {
        self.records.iter().position(|record| record.is_free())
    }

    // Turns one record by a call, and leaves the others; answers whether the record went with the call.
    pub(crate) fn turn(&mut self, i: usize, call: Turn) -> bool
        requires { i < 256 }
        ensures answer { result ≡ goes (slice_index_or (entries self.old) i is_free) call }
        ensures after { entries self.new ≡ slice_set (entries self.old) i (turned (slice_index_or (entries self.old) i is_free) call) }
    {
        self.record_at(i).turn(call)
    }

    // Turns the record with the lease of this serial in this state by a call, and answers that lease.
    pub(crate) fn settle(&mut self, serial: u32, state: State, call: Turn) -> Option<Lease>
        ensures { Settled (entries self.old) serial state call result (entries self.new) }
    {
        let i = self.find(serial, state)?;
        let lease = self.records[i].open_lease()?;
        self.turn(i, call);
        Some(lease)
    }

    // How many open leases are of this role name.
    pub(crate) fn open_of(&self, name: RoleName) -> u32
        ensures value { result ≡ in_book (λ l b. for name.number l) (entries self.now) }
        ensures few { result ≤ 256 }
    {
        self.records
            .iter()
            .filter(|record| record.is_open_for(name))
            .count() as u32
    }
}
