// The bodies of ground clauses.
ghost use Rattle.std.specs.Prelude.{◌≡◌, IfSome, None};
ghost use Rattle.credential.specs.Credentials.{head_of};
ghost use Rattle.model.specs.Clauses.{of, Gives};
ghost use Rattle.walumiren.specs.Explaining.{bodied};

use crate::clauses::Body;
use credential::{Credential, Entity, Membership, Role};

// The body of a ground clause that a credential gives the entity `member` of its head: a linked one gives one through each entity, the others give one through nobody.
pub(crate) fn clause_body(
    credential: Credential,
    member: Entity,
    through: Option<Entity>,
) -> Option<Body>
    ensures { IfSome result (λ b. Gives credential (of (head_of credential) member) (bodied b)) }
{
    match credential {
        Credential::Linked {
            head,
            first,
            second,
        } => {
            let through = through?;
            let group = Role {
                owner: head.owner,
                name: first,
            };
            let team = Role {
                owner: through,
                name: second,
            };
            Some(Body {
                first: Some(Membership {
                    role: group,
                    member: through,
                }),
                second: Some(Membership { role: team, member }),
                negated: None,
            })
        }
        _ => match through {
            None => plain_body(credential, member),
            Some(_) => None,
        },
    }
}

// The body that a credential other than a linked one gives.
fn plain_body(credential: Credential, member: Entity) -> Option<Body>
    ensures { IfSome result (λ b. Gives credential (of (head_of credential) member) (bodied b)) }
{
    match credential {
        Credential::Member { member: named, .. } => {
            if named == member {
                Some(positive(None, None))
            } else {
                None
            }
        }
        Credential::Inclusion { from, .. } => {
            Some(positive(Some(Membership { role: from, member }), None))
        }
        Credential::Intersection { left, right, .. } => {
            let second = Membership {
                role: right,
                member,
            };
            Some(positive(Some(Membership { role: left, member }), Some(second)))
        }
        Credential::Exclusion { from, except, .. } => Some(Body {
            first: Some(Membership { role: from, member }),
            second: None,
            negated: Some(Membership {
                role: except,
                member,
            }),
        }),
        Credential::Linked { .. } => None,
    }
}

fn positive(first: Option<Membership>, second: Option<Membership>) -> Body
    ensures { result ≡ record { first = first; second = second; negated = None } }
{
    Body {
        first,
        second,
        negated: None,
    }
}
