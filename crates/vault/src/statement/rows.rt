// The row of a tally, and the sum of all rows.
ghost use Rattle.std.specs.Prelude.{◌≡◌};
ghost use Rattle.vault.specs.Statements.{row_of, joint, Room, sums_to, Few};

use crate::statement::{Row, Tally};
use std::ops::Add;

// Two rows, figure by figure.
impl Add for Row {
    type Output = Row;

    ghost can_add = { Room };

    ghost add_gives = { λ a b sum. sum ≡ joint a b };

    fn add(self, other: Row) -> Row {
        Row {
            given: self.given + other.given,
            declined: self.declined + other.declined,
            handed_back: self.handed_back + other.handed_back,
            open: self.open + other.open,
            units: self.units + other.units,
        }
    }
}

// The row of a tally, a lease of which has so many units.
pub(super) fn row_of(tally: Tally, units: u16) -> Row
    ensures value { result ≡ row_of tally units }
    ensures few { Few 1 result }
{
    Row {
        given: tally.given,
        declined: tally.declined,
        handed_back: tally.handed_back,
        open: tally.open,
        units: tally.open * units as u32,
    }
}

// The sums over all role names.
pub(super) fn sum_rows(units: &[u16; 16], tallies: &[Tally; 16]) -> Row
    ensures { result ≡ sums_to 16 units.now tallies.now }
{
    let mut sum = Row::default();
    for (tally, units) in tallies.iter().zip(units) {
        sum = sum + row_of(*tally, *units);
    }
    sum
}
