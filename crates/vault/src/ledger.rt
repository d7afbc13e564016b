// The ledger of a vault: what was counted by role name, and the book of leases.
ghost use Rattle.std.specs.Prelude.{◌≤◌};
ghost use Rattle.vault.specs.Balance.{in_lists, Balanced};
ghost use Rattle.vault.specs.Books.{entries};

use crate::book::Book;

mod calls;
mod tallies;

// Of one role name: offers given, offers declined and leases handed back.
#[derive(Clone, Copy, Default)]
struct Figures {
    given: u32,
    declined: u32,
    handed_back: u32,
}

// Offers given in all, and the figures by role name. The figures balance with the book, so that none of them can
// overflow.
#[derive(Drop)]
pub(crate) struct Ledger {
    given: u32,
    figures: [Figures; 16],
    book: Book,
    ghost few: { given ≤ 999999 },
    ghost balanced: { Balanced (in_lists given figures) (entries book) },
}
