// The ground clauses of a membership, one credential and one entity at a time.
use credential::Membership;

pub mod bodies;

// What stands right of the arrow in a ground clause: at most two positive memberships, at most one negated.
#[derive(Clone, Copy)]
pub struct Body {
    pub first: Option<Membership>,
    pub second: Option<Membership>,
    pub negated: Option<Membership>,
}

impl Body {
    // Where its positive memberships stand.
    pub(crate) fn positives(self) -> [Option<Membership>; 2] {
        [self.first, self.second]
    }
}
