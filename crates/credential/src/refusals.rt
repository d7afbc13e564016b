// Why a call says no.
ghost use Rattle.std.specs.Prelude.{◌≡◌};
ghost use Rattle.credential.specs.Refusals.{named, number_in, position_in, entry_in, words_in};

// Each case is one condition; the values are what the refusal names.
#[derive(Clone, Copy, PartialEq, Eq, Debug)]
pub enum Refusal {
    PageTooLong,
    LineUnended { line: usize },
    UnknownLetter { line: usize },
    FieldForm { line: usize, column: usize },
    FieldRange { line: usize, column: usize },
    Form,
    Range,
    AlreadyStands,
    RegisterFull,
    NoSuchPlace,
    BufferTooShort,
    WrongLength,
    EntryUnlawful { place: usize },
    TrueUnproved { place: usize },
    FalseUnrefuted { place: usize },
    UndefinedProved { place: usize },
    UndefinedUnsupported { place: usize },
    NoCertificate,
    MembershipFalse,
    MembershipUndefined,
    BookFull,
    OffersSpent,
    SlipUnknown,
}

impl Refusal {
    // Its number.
    pub fn number(self) -> u8
        ensures { result ≡ number_in (named self) }
    {
        match self {
            Refusal::PageTooLong => 1,
            Refusal::LineUnended { .. } => 2,
            Refusal::UnknownLetter { .. } => 3,
            Refusal::FieldForm { .. } => 4,
            Refusal::FieldRange { .. } => 5,
            Refusal::Form => 4,
            Refusal::Range => 5,
            Refusal::AlreadyStands => 6,
            Refusal::RegisterFull => 7,
            Refusal::NoSuchPlace => 8,
            Refusal::BufferTooShort => 9,
            Refusal::WrongLength => 10,
            Refusal::EntryUnlawful { .. } => 11,
            Refusal::TrueUnproved { .. } => 12,
            Refusal::FalseUnrefuted { .. } => 13,
            Refusal::UndefinedProved { .. } => 14,
            Refusal::UndefinedUnsupported { .. } => 15,
            Refusal::NoCertificate => 16,
            Refusal::MembershipFalse => 17,
            Refusal::MembershipUndefined => 18,
            Refusal::BookFull => 19,
            Refusal::OffersSpent => 20,
            Refusal::SlipUnknown => 21,
        }
    }

    // The line and the column that it names, if it names them.
    pub fn position(self) -> Option<(usize, usize)>
        ensures { result ≡ position_in (named self) }
    {
        match self {
            Refusal::PageTooLong => Some((0, 0)),
            Refusal::LineUnended { line } => Some((line, 20)),
            Refusal::UnknownLetter { line } => Some((line, 1)),
            Refusal::FieldForm { line, column } => Some((line, column)),
            Refusal::FieldRange { line, column } => Some((line, column)),
            _ => None,
        }
    }

    // The place of the entry that it names, if it names one.
    pub fn entry(self) -> Option<usize>
        ensures { result ≡ entry_in (named self) }
    {
        match self {
            Refusal::EntryUnlawful { place } => Some(place),
            Refusal::TrueUnproved { place } => Some(place),
            Refusal::FalseUnrefuted { place } => Some(place),
            Refusal::UndefinedProved { place } => Some(place),
            Refusal::UndefinedUnsupported { place } => Some(place),
            _ => None,
        }
    }

    // Its condition in words.
    pub fn words(self) -> &'static str
        ensures { result.now ≡ words_in (named self) }
    {
        WORDS[self.number() as usize - 1]
    }
}

// The conditions in words, by rising number.
const WORDS: [&str; 21] = [
    "the page has more than 5120 bytes",
    "column 20 of the line is missing or is not a newline",
    "the letter is none of M, I, L, N and X",
    "a field is blank where a number belongs, filled where a blank belongs, or of unlawful form",
    "a number is outside the range of its field",
    "the credential already stands",
    "the register is full",
    "no credential stands at the place",
    "the buffer has fewer than 20 bytes for each credential",
    "a table does not have 16384 entries, or the statement's buffer has fewer than 663 bytes",
    "the entry has another verdict than T, F and U, or a number outside 1 to 16384",
    "the T entry lacks its clause",
    "the F entry has a clause without what F needs",
    "the U entry has a clause that is all true",
    "the U entry lacks its supporting clause",
    "no certificate stands",
    "the membership is false",
    "the membership is undefined",
    "the book has 256 open leases",
    "the vault has given 999999 offers",
    "the slip has another vault number, or its lease is not open in the state that the call needs",
];
