// The two tables of a certificate, once both have a lawful entry for each membership.
ghost use Rattle.std.specs.Prelude.{◌≡◌, ℕ, ◌<◌, ◌==◌, true, cond, length, slice_index};
ghost use Rattle.credential.specs.Memberships.{place};
ghost use Rattle.credential.specs.Refusals.{answer, refused};
ghost use Rattle.model.specs.Tables.{table};
ghost use Rattle.model.specs.Verdicts.{byte_of};
ghost use Rattle.checker.specs.Rules.{first_unlawful, lawful, lawful_at, tables_in};

use credential::{Membership, Refusal};
use model::{Entry, Verdict};

// Tables whose entries are lawful, one for each membership.
#[derive(Clone, Copy)]
pub(crate) struct Tables<'a> {
    verdicts: &'a [u8; Membership::COUNT],
    numbers: &'a [u16; Membership::COUNT],
    ghost lawful: { (p : ℕ) → p < 16384 → lawful_at verdicts.now numbers.now p ≡ true },
}

impl<'a> Tables<'a> {
    // The tables, or the refusal of another length, or of the first entry that is not lawful.
    pub(crate) fn new(verdicts: &'a [u8], numbers: &'a [u16]) -> Result<Tables<'a>, Refusal>
        ensures { answer (λ (t : _). table t.verdicts.now t.numbers.now) result ≡ tables_in verdicts.now numbers.now }
    {
        let verdicts = sized(verdicts)?;
        let numbers = sized(numbers)?;
        match first_unlawful(verdicts, numbers) {
            Some(place) => Err(Refusal::EntryUnlawful { place }),
            None => Ok(Tables { verdicts, numbers }),
        }
    }

    // What they say of the membership.
    pub(crate) fn entry(self, m: Membership) -> Entry
        ensures membership { result.membership ≡ m }
        ensures verdict { byte_of result.verdict ≡ slice_index self.entry.verdicts.now (place m) }
        ensures number { result.number ≡ slice_index self.entry.numbers.now (place m) }
    {
        let place = m.place();
        Entry {
            membership: m,
            verdict: Verdict::try_from(self.verdicts[place]).ok().unwrap(),
            number: self.numbers[place],
        }
    }

    // The number alone: a question is put for every entry, and asks for no more.
    pub(crate) fn number(self, m: Membership) -> u16
        ensures { result ≡ slice_index self.entry.numbers.now (place m) }
    {
        self.numbers[m.place()]
    }
}

// The list by its length, if that is one entry for each membership.
fn sized<T>(entries: &[T]) -> Result<&[T; Membership::COUNT], Refusal>
    ensures { answer (λ (t : _). t.now) result ≡ cond (length entries.now == 16384) (Ok entries.now) (Err (refused 10)) }
{
    entries.try_into().map_err(|_| Refusal::WrongLength)
}

// One of the three verdicts, and a number from 1 to 16,384.
fn is_lawful(verdict: u8, number: u16) -> bool
    ensures { result ≡ lawful verdict number }
{
    Verdict::try_from(verdict).is_ok() && (1..=16384).contains(&number)
}

// The first place whose entry is not lawful.
fn first_unlawful(
    verdicts: &[u8; Membership::COUNT],
    numbers: &[u16; Membership::COUNT],
) -> Option<usize>
    ensures { result ≡ first_unlawful verdicts.now numbers.now }
{
    verdicts
        .iter()
        .zip(numbers)
        .position(|(verdict, number)| !is_lawful(*verdict, *number))
}
