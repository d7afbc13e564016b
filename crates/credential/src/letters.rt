// The five letters of credentials, and the table that decides which fields each has.
ghost use Rattle.std.specs.Prelude.{◌≡◌};
ghost use Rattle.std.specs.Result.{result_ok};
ghost use Rattle.credential.specs.Letters.{letter_byte, letter_in, marks_of, tested, ranged, unplaced, placed_at};
ghost use Rattle.credential.specs.Refusals.{named};

use crate::numbers::{Entity, RoleName};
use crate::refusals::Refusal;

// The kinds of credentials.
#[derive(Clone, Copy, PartialEq, Eq)]
pub enum Letter {
    Member,
    Inclusion,
    Linked,
    Intersection,
    Exclusion,
}

// That a byte stands for no letter.
#[derive(Clone, Copy, PartialEq, Eq)]
pub struct UnknownLetter;

// What belongs into a field.
#[derive(Clone, Copy)]
pub enum Mark {
    Entity,
    RoleName,
    Blank,
}

// Why a field does not fit its mark: blank or filled where it should not be, or a number out of range.
#[derive(Clone, Copy)]
pub enum Misfit {
    Form,
    Range,
}

// The table of marks: a row for each letter, with the fields A, r, B, s, C and t.
#[rattlefmt::skip]
const MARKS: [[Mark; 6]; 5] = [
    [Mark::Entity, Mark::RoleName, Mark::Entity, Mark::Blank, Mark::Blank, Mark::Blank],
    [Mark::Entity, Mark::RoleName, Mark::Entity, Mark::RoleName, Mark::Blank, Mark::Blank],
    [Mark::Entity, Mark::RoleName, Mark::Blank, Mark::RoleName, Mark::Blank, Mark::RoleName],
    [Mark::Entity, Mark::RoleName, Mark::Entity, Mark::RoleName, Mark::Entity, Mark::RoleName],
    [Mark::Entity, Mark::RoleName, Mark::Entity, Mark::RoleName, Mark::Entity, Mark::RoleName],
];

impl Letter {
    // The marks of its six fields.
    pub fn marks(self) -> &'static [Mark; 6]
        ensures { result.now ≡ marks_of self }
    {
        &MARKS[self as usize]
    }
}

impl From<Letter> for u8 {
    ghost from_gives = { λ l b. b ≡ letter_byte l };

    fn from(letter: Letter) -> u8 {
        match letter {
            Letter::Member => b'M',
            Letter::Inclusion => b'I',
            Letter::Linked => b'L',
            Letter::Intersection => b'N',
            Letter::Exclusion => b'X',
        }
    }
}

impl TryFrom<u8> for Letter {
    type Error = UnknownLetter;

    ghost try_from_gives = { λ b r. result_ok r ≡ letter_in b };

    fn try_from(byte: u8) -> Result<Letter, UnknownLetter> {
        match byte {
            b'M' => Ok(Letter::Member),
            b'I' => Ok(Letter::Inclusion),
            b'L' => Ok(Letter::Linked),
            b'N' => Ok(Letter::Intersection),
            b'X' => Ok(Letter::Exclusion),
            _ => Err(UnknownLetter),
        }
    }
}

impl Mark {
    // Whether a field fits: a number in range under a number's mark, nothing under a blank's.
    pub fn test(self, field: Option<u32>) -> Result<(), Misfit>
        ensures { result ≡ tested self field }
    {
        match (self, field) {
            (Mark::Entity, Some(n)) => in_range(n, Entity::MOST as u32),
            (Mark::RoleName, Some(n)) => in_range(n, RoleName::MOST as u32),
            (Mark::Blank, None) => Ok(()),
            (Mark::Entity, None) => Err(Misfit::Form),
            (Mark::RoleName, None) => Err(Misfit::Form),
            (Mark::Blank, Some(_)) => Err(Misfit::Form),
        }
    }
}

fn in_range(n: u32, most: u32) -> Result<(), Misfit>
    ensures { result ≡ ranged most n }
{
    if (1..=most).contains(&n) {
        Ok(())
    } else {
        Err(Misfit::Range)
    }
}

// The refusal outside pages, which names nothing.
impl From<Misfit> for Refusal {
    ghost from_gives = { λ m r. named r ≡ unplaced m };

    fn from(misfit: Misfit) -> Refusal {
        match misfit {
            Misfit::Form => Refusal::Form,
            Misfit::Range => Refusal::Range,
        }
    }
}

impl Misfit {
    // The refusal of a field on a page, which names its line and its first column.
    pub fn refusal_at(self, line: usize, column: usize) -> Refusal
        ensures { named result ≡ placed_at line column self }
    {
        match self {
            Misfit::Form => Refusal::FieldForm { line, column },
            Misfit::Range => Refusal::FieldRange { line, column },
        }
    }
}
