// What is asked of the ground clauses of a membership.
ghost use Rattle.std.specs.Prelude.{◌≡◌, slice_index};
ghost use Rattle.credential.specs.Memberships.{place};

use crate::literals::Sign;
use crate::tables::Tables;
use crate::wants::Want;
use credential::{Credential, Entity, Membership, Role, RoleName};

// Whether a clause of the membership has what is wanted, by the tables and at the number of its entry.
#[derive(Clone, Copy)]
pub(crate) struct Question<'a> {
    tables: Tables<'a>,
    about: Membership,
    number: u16,
    want: Want,
    ghost own: { number ≡ slice_index tables.numbers.now (place about) },
}

impl<'a> Question<'a> {
    ghost use Rattle.model.specs.Grounds.{any, everyone};
    ghost use Rattle.checker.specs.Questions.{asked_of, links, literal_passes, served_by};

    pub(crate) fn new(tables: Tables<'a>, about: Membership, want: Want) -> Question<'a>
        ensures tables { result.tables ≡ tables.entry }
        ensures about { result.about ≡ about }
        ensures want { result.want ≡ want }
    {
        let number = tables.number(about);
        Question {
            tables,
            about,
            number,
            want,
        }
    }

    // Some ground clause that one of the credentials gives passes.
    #[tactic(auto, unfolding(crate::specs::Rules::asked))]
    pub(crate) fn passes(self, credentials: &[Credential]) -> bool
        ensures { result ≡ asked_of self.entry credentials.now }
    {
        credentials
            .iter()
            .any(|credential| self.serves(*credential))
    }

    // Some ground clause that the credential gives passes.
    fn serves(self, credential: Credential) -> bool
        ensures { result ≡ served_by self.entry credential }
    {
        let Membership { role, member } = self.about;
        if credential.head() != role {
            return false;
        }
        match credential {
            Credential::Member { member: other, .. } => other == member,
            Credential::Inclusion { from, .. } => self.literal(Sign::Positive, from, member),
            Credential::Linked { first, second, .. } => self.linked(first, second),
            Credential::Intersection { left, right, .. } => {
                self.literal(Sign::Positive, left, member)
                    && self.literal(Sign::Positive, right, member)
            }
            Credential::Exclusion { from, except, .. } => {
                self.literal(Sign::Positive, from, member)
                    && self.literal(Sign::Negated, except, member)
            }
        }
    }

    // The literal that the entity belongs to the role, or does not, passes.
    fn literal(self, sign: Sign, role: Role, member: Entity) -> bool
        ensures { result ≡ literal_passes self.entry sign role.owner.number role.name.number member.number }
    {
        let entry = self.tables.entry(Membership { role, member });
        self.want.is_met(sign, self.number, entry)
    }

    // Some entity links the role's owner to the member.
    fn linked(self, first: RoleName, second: RoleName) -> bool
        ensures { result ≡ any (links self.entry first second) everyone }
    {
        Entity::all().any(|y| self.links(first, second, y))
    }

    // The role's owner says that y is in its first role, and y that the member is in its second.
    fn links(self, first: RoleName, second: RoleName, y: Entity) -> bool
        ensures { result ≡ links self.entry first second y.number }
    {
        let Membership { role, member } = self.about;
        let there = Role {
            owner: role.owner,
            name: first,
        };
        let on = Role {
            owner: y,
            name: second,
        };
        self.literal(Sign::Positive, there, y) && self.literal(Sign::Positive, on, member)
    }
}
