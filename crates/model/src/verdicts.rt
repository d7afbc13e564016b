// The three verdicts on a membership, and their bytes in a table.
ghost use Rattle.std.specs.Prelude.{◌≡◌};
ghost use Rattle.model.specs.Verdicts.{byte_of, verdict_of};

// What the model says of a membership.
#[derive(Clone, Copy, PartialEq, Eq)]
pub enum Verdict {
    True,
    False,
    Undefined,
}

// A byte that stands for no verdict.
#[derive(Clone, Copy, PartialEq, Eq)]
pub struct UnknownVerdict(pub u8);

impl From<Verdict> for u8 {
    ghost from_gives = { λ verdict byte. byte ≡ byte_of verdict };

    fn from(verdict: Verdict) -> u8 {
        match verdict {
            Verdict::True => b'T',
            Verdict::False => b'F',
            Verdict::Undefined => b'U',
        }
    }
}

impl TryFrom<u8> for Verdict {
    type Error = UnknownVerdict;

    ghost try_from_gives = { λ byte result. result ≡ verdict_of byte };

    fn try_from(byte: u8) -> Result<Verdict, UnknownVerdict> {
        match byte {
            b'T' => Ok(Verdict::True),
            b'F' => Ok(Verdict::False),
            b'U' => Ok(Verdict::Undefined),
            _ => Err(UnknownVerdict(byte)),
        }
    }
}
