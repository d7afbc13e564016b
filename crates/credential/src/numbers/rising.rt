// All numbers of a range, rising.
ghost use Rattle.std.specs.Prelude.{◌≡◌, ◌+◌, ◌-◌, ◌≤◌};
ghost use Rattle.std.specs.Iterator.{YieldsFirstBy, item_count};
ghost use Rattle.std.specs.List.{range_with_len};

use crate::numbers::Number;

// The numbers from 1 to `MOST` that are left.
#[derive(Drop)]
pub struct Rising<const MOST: u8> {
    given: u8,
    ghost within: { given ≤ MOST },
}

impl<const MOST: u8> Number<MOST> {
    // Every entity or role name.
    pub fn all() -> Rising<MOST>
        ensures { result.given ≡ 0 }
    {
        Rising { given: 0 }
    }
}

impl<const MOST: u8> Iterator for Rising<MOST> {
    type Item = Number<MOST>;

    ghost next_gives = { YieldsFirstBy (λ n. n.number) (λ s. range_with_len (s.given + 1) (MOST - s.given)) };

    ghost remaining = { item_count (λ s. range_with_len (s.given + 1) (MOST - s.given)) };

    fn next(&mut self) -> Option<Number<MOST>> {
        if self.given == MOST {
            return None;
        }
        self.given += 1;
        Some(Number { number: self.given })
    }
}
