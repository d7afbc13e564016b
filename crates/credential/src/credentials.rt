// Credentials: who says that which entities belong to a role.
ghost use Rattle.std.specs.Prelude.{◌≡◌, IfOk, Some, Ok};
ghost use Rattle.credential.specs.Credentials.{letter_of, head_of, fields_of, filled, role_in, fitted, built_of, credential_of};
ghost use Rattle.credential.specs.Letters.{marks_of};
ghost use Rattle.credential.specs.Refusals.{answered};

use crate::letters::Letter;
use crate::numbers::{Entity, Number, RoleName};
use crate::refusals::Refusal;
use crate::roles::Role;

// A credential: its head is the role that it is about, and the rest says who belongs to that.
#[derive(Clone, Copy, PartialEq, Eq)]
pub enum Credential {
    Member {
        head: Role,
        member: Entity,
    },
    Inclusion {
        head: Role,
        from: Role,
    },
    Linked {
        head: Role,
        first: RoleName,
        second: RoleName,
    },
    Intersection {
        head: Role,
        left: Role,
        right: Role,
    },
    Exclusion {
        head: Role,
        from: Role,
        except: Role,
    },
}

impl Credential {
    // The credential of a letter and six fields, each tested against its mark, from left to right.
    pub fn new(letter: Letter, fields: [Option<u32>; 6]) -> Result<Credential, Refusal>
        ensures value { answered result ≡ credential_of letter fields }
        ensures has { IfOk result (λ c. (letter_of c ≡ letter) × (fields_of c ≡ fields)) }
    {
        test_fields(letter, fields)?;
        build(letter, fields)
    }

    pub fn letter(self) -> Letter
        ensures { result ≡ letter_of self }
    {
        match self {
            Credential::Member { .. } => Letter::Member,
            Credential::Inclusion { .. } => Letter::Inclusion,
            Credential::Linked { .. } => Letter::Linked,
            Credential::Intersection { .. } => Letter::Intersection,
            Credential::Exclusion { .. } => Letter::Exclusion,
        }
    }

    // The role that it is about.
    pub fn head(self) -> Role
        ensures { result ≡ head_of self }
    {
        match self {
            Credential::Member { head, .. } => head,
            Credential::Inclusion { head, .. } => head,
            Credential::Linked { head, .. } => head,
            Credential::Intersection { head, .. } => head,
            Credential::Exclusion { head, .. } => head,
        }
    }

    // Its six fields, of which each fits its mark; a credential is made of its letter and these.
    pub fn fields(self) -> [Option<u32>; 6]
        ensures value { result ≡ fields_of self }
        ensures fit { fitted (marks_of (letter_of self)) result ≡ Ok tt }
        ensures back { credential_of (letter_of self) result ≡ Ok self }
    {
        fields_of(self)
    }
}

fn fields_of(credential: Credential) -> [Option<u32>; 6]
    ensures { result ≡ fields_of credential }
{
    match credential {
        Credential::Member { head, member } => {
            let (a, r) = role_fields(head);
            [a, r, field_of(member), None, None, None]
        }
        Credential::Inclusion { head, from } => {
            let (a, r) = role_fields(head);
            let (b, s) = role_fields(from);
            [a, r, b, s, None, None]
        }
        Credential::Linked {
            head,
            first,
            second,
        } => {
            let (a, r) = role_fields(head);
            [a, r, None, field_of(first), None, field_of(second)]
        }
        Credential::Intersection { head, left, right } => {
            let (a, r) = role_fields(head);
            let (b, s) = role_fields(left);
            let (c, t) = role_fields(right);
            [a, r, b, s, c, t]
        }
        Credential::Exclusion { head, from, except } => {
            let (a, r) = role_fields(head);
            let (b, s) = role_fields(from);
            let (c, t) = role_fields(except);
            [a, r, b, s, c, t]
        }
    }
}

fn field_of<const MOST: u8>(number: Number<MOST>) -> Option<u32>
    ensures { result ≡ Some number.entry.number }
{
    Some(u32::from(number.number()))
}

fn role_fields(role: Role) -> (Option<u32>, Option<u32>)
    ensures { result ≡ (Some role.owner.number, Some role.name.number) }
{
    (field_of(role.owner), field_of(role.name))
}

// Letter and fields stay two parameters: a struct of the two would be a credential that nobody has tested.
#[tactic(auto, unfolding(crate::specs::Credentials::fitted))]
fn test_fields(letter: Letter, fields: [Option<u32>; 6]) -> Result<(), Refusal>
    ensures { answered result ≡ fitted (marks_of letter) fields }
{
    for (mark, field) in letter.marks().iter().zip(&fields) {
        mark.test(*field)?;
    }
    Ok(())
}

// The entity or role name in a field.
fn number_in<const MOST: u8>(field: Option<u32>) -> Result<Number<MOST>, Refusal>
    ensures { answered result ≡ filled MOST field }
{
    Number::new(field.ok_or(Refusal::Form)?)
}

fn role_in(owner: Option<u32>, name: Option<u32>) -> Result<Role, Refusal>
    ensures { answered result ≡ role_in owner name }
{
    let owner = number_in(owner)?;
    let name = number_in(name)?;
    Ok(Role { owner, name })
}

// The credential of a letter, of those of the six fields that it has.
fn build(letter: Letter, fields: [Option<u32>; 6]) -> Result<Credential, Refusal>
    ensures { answered result ≡ built_of letter fields }
{
    let [a, r, b, s, c, t] = fields;
    let head = role_in(a, r)?;
    match letter {
        Letter::Member => {
            let member = number_in(b)?;
            Ok(Credential::Member { head, member })
        }
        Letter::Inclusion => {
            let from = role_in(b, s)?;
            Ok(Credential::Inclusion { head, from })
        }
        Letter::Linked => {
            let first = number_in(s)?;
            let second = number_in(t)?;
            Ok(Credential::Linked {
                head,
                first,
                second,
            })
        }
        Letter::Intersection => {
            let left = role_in(b, s)?;
            let right = role_in(c, t)?;
            Ok(Credential::Intersection { head, left, right })
        }
        Letter::Exclusion => {
            let from = role_in(b, s)?;
            let except = role_in(c, t)?;
            Ok(Credential::Exclusion { head, from, except })
        }
    }
}
