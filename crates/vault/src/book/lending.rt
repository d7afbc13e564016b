// The lending of one record of the book.
ghost use Rattle.std.specs.Borrow.{sem, follows};
ghost use Rattle.std.specs.Prelude.{◌≡◌, ◌<◌, slice_index_or};
ghost use Rattle.std.specs.Vec.{with_item};
ghost use Rattle.vault.specs.contracts.book.Record.{the_row as record-row};
ghost use Rattle.vault.specs.contracts.book.Book.{the_row};

use crate::book::{Book, Record};

impl Book {
    pub(crate) fn record_at(&mut self, i: usize) -> &mut Record
        requires { i < 256 }
        ensures* follows { sem 𝓛 (follows the_row record-row self.entry.ghost_name result.ghost_name (λ w. record { records = with_item self.old.records i w; full = self.old.full })) }
        ensures value { result.now ≡ slice_index_or self.old.records.items i result.now }
    {
        &mut self.records[i]
    }
}
