// The plain notation: a role as `1.3`, a credential as `1.1 <- 2.1 - 3.1`, a refusal as its number and its condition.
ghost use Rattle.std.specs.Prelude.{Some, decimal};
ghost use Rattle.credential.specs.Notation.{role_text, membership_text, credential_text, refusal_text};

use crate::credentials::Credential;
use crate::memberships::Membership;
use crate::numbers::Number;
use crate::refusals::Refusal;
use crate::roles::Role;
use std::error::Error;
use std::fmt;

impl<const MOST: u8> fmt::Display for Number<MOST> {
    ghost output = { λ x. Some (decimal x.number) };

    fn fmt<W: fmt::Write>(&self, f: &mut fmt::Formatter<W>) -> fmt::Result {
        self.number().fmt(f)
    }
}

impl fmt::Display for Role {
    ghost output = { λ x. Some (role_text x) };

    fn fmt<W: fmt::Write>(&self, f: &mut fmt::Formatter<W>) -> fmt::Result {
        let Role { owner, name } = *self;
        write!(f, "{owner}.{name}")
    }
}

// As `4 in 1.3`.
impl fmt::Display for Membership {
    ghost output = { λ x. Some (membership_text x) };

    fn fmt<W: fmt::Write>(&self, f: &mut fmt::Formatter<W>) -> fmt::Result {
        let Membership { role, member } = *self;
        write!(f, "{member} in {role}")
    }
}

impl fmt::Display for Credential {
    ghost output = { λ x. Some (credential_text x) };

    fn fmt<W: fmt::Write>(&self, f: &mut fmt::Formatter<W>) -> fmt::Result {
        match *self {
            Credential::Member { head, member } => write!(f, "{head} <- {member}"),
            Credential::Inclusion { head, from } => write!(f, "{head} <- {from}"),
            Credential::Linked {
                head,
                first,
                second,
            } => {
                let owner = head.owner;
                write!(f, "{head} <- {owner}.{first}.{second}")
            }
            Credential::Intersection { head, left, right } => {
                write!(f, "{head} <- {left} & {right}")
            }
            Credential::Exclusion { head, from, except } => {
                write!(f, "{head} <- {from} - {except}")
            }
        }
    }
}

impl fmt::Display for Refusal {
    ghost output = { λ x. Some (refusal_text x) };

    fn fmt<W: fmt::Write>(&self, f: &mut fmt::Formatter<W>) -> fmt::Result {
        let number = self.number();
        let words = self.words();
        write!(f, "refusal {number}: {words}")
    }
}

impl Error for Refusal {}
