// The entry of one membership in the two tables of a certificate, and its line.
ghost use Rattle.std.specs.Prelude.{Some};
ghost use Rattle.model.specs.Entries.{entry_text};

use crate::verdicts::Verdict;
use credential::Membership;
use std::fmt;

// A membership with its verdict and its number.
#[derive(Clone, Copy, PartialEq, Eq)]
pub struct Entry {
    pub membership: Membership,
    pub verdict: Verdict,
    pub number: u16,
}

// As `T  1  3  4    17`: the verdict, then owner, role name, member and number in columns.
impl fmt::Display for Entry {
    ghost output = { λ e. Some (entry_text e) };

    fn fmt<W: fmt::Write>(&self, f: &mut fmt::Formatter<W>) -> fmt::Result {
        let verdict = char::from(u8::from(self.verdict));
        let owner = self.membership.role.owner.number();
        let name = self.membership.role.name.number();
        let member = self.membership.member.number();
        let number = self.number;
        write!(f, "{verdict}{owner:>3}{name:>3}{member:>3}{number:>6}")
    }
}
